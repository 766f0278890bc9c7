use crate::checks::{check_equal, check_true_at};
use rv_isa::{Kind, Values};

#[test]
fn each_kind_has_its_own_values(rt: HostRuntime) {
    const CASES: [(Kind, u32, u32, bool); 4] = [
        (Kind::Alu, 2, 1, true),
        (Kind::Mul, 1, 3, true),
        (Kind::Div, 1, 16, false),
        (Kind::Mem, 1, 1, true),
    ];
    check_equal(&rt, Kind::ALL, [Kind::Alu, Kind::Mul, Kind::Div, Kind::Mem]);
    let values = Values::standard();
    for (place, (kind, units, latency, pipelined)) in CASES.iter().enumerate() {
        let found = values.kinds.get(*kind);
        let shown = (found.units, found.latency, found.pipelined);
        check_true_at(&rt, place as u64, shown == (*units, *latency, *pipelined));
    }
}

#[test]
fn the_standard_predictor_has_sixty_four_places(rt: HostRuntime) {
    check_equal(&rt, Values::standard().predictor.entries, 64);
}
