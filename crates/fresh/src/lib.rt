// The image of a fresh system.
#![tactic(auto)]

ghost use Rattle.std.specs.Prelude.{◌≡◌, eqb, length};
ghost use Rattle.view.specs.Logic.{pick};
ghost use Rattle.system.specs.Fresh.{fresh_system};
ghost use Rattle.image.specs.Image.{image_width, system_in, Becomes};
ghost use Rattle.fresh.specs.Fresh.{blank_system, with_fresh};

use image::{IMAGE, put_entry, put_variables};
use system::Variables;
use view::{GroupIndex, ProcessId};

// Every byte becomes 0, but the first.
fn put_blank(image: &mut [u8], n: u8)
    requires { length image.old ≡ image_width }
    ensures { system_in image.new ≡ blank_system n }
{
    image.fill(0);
    image[0] = n;
}

#[tactic(auto, unfolding(crate::specs::Fresh::with_fresh))]
fn put_process(image: &mut [u8], n: u8, p: ProcessId)
    ensures { system_in image.new ≡ with_fresh n p.0 (system_in image.old) }
{
    let x = Variables::fresh(n);
    put_variables(image, p, x);
    put_entry(image, p, GroupIndex(1), x.view);
}

// The bytes become the image of the fresh system of n processes, where they have an image's length.
pub fn put_fresh(image: &mut [u8], n: u8)
    ensures { Becomes (pick (eqb (length image.old) image_width) (fresh_system n) (system_in image.old)) image.old image.new }
{
    if image.len() == IMAGE {
        put_blank(image, n);
        for p in 1..=8 {
            put_process(image, n, ProcessId(p));
        }
    }
}
