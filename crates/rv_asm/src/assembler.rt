ghost use Rattle.std.specs.Prelude.{◌≡◌, ◌-◌, ◌++◌, ◌==◌, List, None, IfOk, IfErr};
ghost use Rattle.rv_asm.specs.Answer.{RefusedAt};
ghost use Rattle.rv_asm.specs.Faults.{fault_of};
ghost use Rattle.rv_asm.specs.Layout.{layout, lines_of};
ghost use Rattle.rv_asm.specs.Meaning.{Cell, Spells, image_parts, round_up, start_address, after_text};
ghost use Rattle.rv_asm.specs.Symbols.{cells_in, fault_in, layout_of};

use crate::directive::push_zeros;
use crate::fault::{AsmError, AsmFault};
use crate::layout::Layout;
use crate::program::Program;
use crate::sections::{Sections, start_address};
use rv_isa::{Bytes, Image};
use std::alloc::Global;

/// How many zero bytes stand between the text and the data.
fn gap(text_size: usize) -> usize
    ensures { result ≡ round_up text_size - text_size }
{
    let size = text_size as u128;
    ((size + 15) / 16 * 16 - size) as usize
}

/// The bytes of the image: the text, and after zero bytes the data, if there are any.
fn joined(text_size: usize, data_size: usize, sections: Sections) -> Result<Vec<u8>, AsmFault>
    ensures spells { (text_parts data_parts : List Cell) → Spells text_parts sections.text.items →
        Spells data_parts sections.data_bytes.items →
        IfOk result (λ bytes. Spells (text_parts ++ after_text text_size data_size data_parts) bytes.items) }
    ensures refused { IfErr result (λ fault. fault ≡ AsmFault.Memory) }
{
    let Sections {
        mut text,
        data_bytes,
    } = sections;
    if data_size == 0 {
        return Ok(text);
    }
    push_zeros(&mut text, gap(text_size))?;
    text.extend_from_slice(data_bytes.as_slice())?;
    Ok(text)
}

/// The image of a program, or its first fault in the second pass.
pub fn image_of(alloc: Global, program: &Program<'_, '_>) -> Result<Image, AsmError>
    ensures clean { IfOk result (λ _. fault_in program.now ≡ None) }
    ensures base { IfOk result (λ image. image.base ≡ program.now.base) }
    ensures bytes { IfOk result (λ image. Spells (cells_in program.now) image.bytes) }
    ensures start { IfOk result (λ image.
        image.start ≡ start_address program.now.base (layout_of program.now.layout.now)) }
    ensures refused { RefusedAt (fault_in program.now) result }
    ensures memory { IfErr result (λ error. error.fault ≡ AsmFault.Memory → error.line ≡ 0) }
{
    let sections = Sections::of_program(alloc, program)?;
    let start = start_address(program);
    let reach = program.layout.reach;
    let Ok(bytes) = joined(reach.text_size, reach.data_size, sections) else {
        return Err(AsmError::at(AsmFault::Memory, 0));
    };
    Ok(Image {
        base: program.base,
        bytes: Bytes::from_vec(bytes),
        start,
    })
}

/// The image of an assembly text whose text section begins at the base, or its first fault.
///
/// The base is a multiple of 4096 from 0 to 0xff000000. Want of memory is answered only where a
/// growth was refused.
pub fn assemble(alloc: Global, text: &[u8], base: u32) -> Result<Image, AsmError>
    ensures clean { IfOk result (λ _. fault_of base (lines_of text.now) ≡ None) }
    ensures base { IfOk result (λ image. image.base ≡ base) }
    ensures bytes { IfOk result (λ image. Spells (image_parts base (lines_of text.now)) image.bytes) }
    ensures start { IfOk result (λ image. image.start ≡ start_address base (layout (lines_of text.now))) }
    ensures refused { RefusedAt (fault_of base (lines_of text.now)) result }
    ensures memory { IfErr result (λ error. error.fault ≡ AsmFault.Memory → error.line ≡ 0) }
{
    let layout = Layout::of_text(alloc, text)?;
    let program = Program {
        layout: &layout,
        base,
    };
    image_of(alloc, &program)
}
