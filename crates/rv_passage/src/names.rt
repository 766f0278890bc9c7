ghost use Rattle.std.specs.Prelude.{◌≡◌, ◌≤◌, ◌<◌, [], get_or, length, map};
ghost use Rattle.rv_passage.specs.Names.{register_name};

use rv_isa::Reg;

// The registers' names in the calling convention, from x0 on.
static NAMES: [&[u8]; 32] = [
    b"zero", b"ra", b"sp", b"gp", b"tp", b"t0", b"t1", b"t2", b"s0", b"s1", b"a0", b"a1", b"a2",
    b"a3", b"a4", b"a5", b"a6", b"a7", b"s2", b"s3", b"s4", b"s5", b"s6", b"s7", b"s8", b"s9",
    b"s10", b"s11", b"t3", b"t4", b"t5", b"t6",
];

// The name at a place of a table.
fn name_at(names: &[&'static [u8]], place: usize) -> &'static [u8]
    requires { place < length names.now }
    ensures { result.now ≡ get_or (map (λ name. name.now) names.now) place [] }
{
    names[place]
}

/// The name of a register in the calling convention, such as `sp`.
pub fn register_name(register: Reg) -> &'static [u8]
    ensures name { result.now ≡ register_name register }
    ensures short { length result.now ≤ 4 }
{
    name_at(&NAMES, usize::from(register.number()))
}
