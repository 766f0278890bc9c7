ghost use Rattle.std.specs.Prelude.{◌≡◌, ◌++◌, OnOk};
ghost use Rattle.rv_refusal.specs.Unfit.{unfit_lines};

use crate::text::add_all;
use itoa::Buffer;
use std::alloc::AllocError;

/// Appends the lines on an image of so many bytes, where RAM has so many.
#[tactic(auto, unfolding(crate::specs::Unfit::unfit_lines))]
pub(crate) fn add_unfit(out: &mut Vec<u8>, image: usize, ram: u32) -> Result<(), AllocError>
    ensures { OnOk result (out.new.items ≡ out.old.items ++ unfit_lines image ram) }
{
    let mut of_image = Buffer::new();
    let image = of_image.format(image).as_bytes();
    let mut of_ram = Buffer::new();
    let ram = of_ram.format(ram).as_bytes();
    add_all(
        out,
        &[
            b"the image has ",
            image,
            b" bytes, the RAM that is described ",
            ram,
            b" bytes\nexpected: a shorter program, or a greater ram_size\n",
        ],
    )
}
