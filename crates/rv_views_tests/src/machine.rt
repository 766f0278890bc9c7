use rv_core::Pipeline;
use rv_isa::{Arrivals, Description, Image, Values};
use rv_source::{Listing, SourceLine};
use std::alloc::Global;
use std::process::Abort;

const BASE: u32 = 0x8000_0000;

/// The machine of these values.
pub(crate) fn described(rt: &impl Abort, values: Values) -> Description {
    Description::new(values).expect(rt, "a legal description")
}

/// The standard machine, which does one thing a cycle.
pub(crate) fn narrow() -> Values {
    let mut values = Values::standard();
    values.fetch_width = 1;
    values.dispatch_width = 1;
    values.commit_width = 1;
    values.bus_width = 1;
    values.kinds.alu.units = 1;
    values
}

/// A pipeline at reset with a program at the front of its RAM.
pub(crate) fn pipeline(
    rt: &impl Abort,
    alloc: Global,
    description: &Description,
    program: &[u8],
) -> Pipeline {
    let image = Image::from_bytes(alloc, BASE, program, BASE).expect(rt, "an image");
    Pipeline::new(alloc, description, &image).expect(rt, "a pipeline")
}

/// Lines that stay low.
pub(crate) fn no_arrivals(rt: &impl Abort, alloc: Global) -> Arrivals {
    Arrivals::new(Vec::new(alloc)).expect(rt, "no arrivals")
}

/// A listing of lines, each of one word.
pub(crate) fn listing(rt: &impl Abort, alloc: Global, lines: &[&str]) -> Listing {
    let mut listing = Listing::new(alloc, BASE);
    for (place, line) in lines.iter().enumerate() {
        let text = line.as_bytes().to_vec(alloc).expect(rt, "a line");
        listing
            .push_line(SourceLine::new(place + 1, text), 1)
            .expect(rt, "room for a line");
    }
    listing
}
