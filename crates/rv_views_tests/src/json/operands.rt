use crate::json::expect_text;
use rv_isa::Reg;
use rv_states::write_operand;
use rv_stations::Operand;
use rv_text::Sink;

#[test]
fn an_operand_is_a_value_or_the_number_of_its_producer(rt: HostRuntime) {
    let register = Reg::new(5).expect(&rt, "a register");
    let mut text = Vec::new(rt.alloc());
    write_operand(
        &mut Sink::new(&mut text),
        "first",
        register,
        Operand::Value(6),
    );
    expect_text(&rt, &text, b",\"first\":{\"register\":5,\"value\":6}");
    let mut text = Vec::new(rt.alloc());
    write_operand(
        &mut Sink::new(&mut text),
        "second",
        register,
        Operand::Tag(7),
    );
    expect_text(&rt, &text, b",\"second\":{\"register\":5,\"producer\":7}");
}
