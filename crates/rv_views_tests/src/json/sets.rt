use crate::json::expect_text;
use rv_cache::CacheLine;
use rv_states::write_set;
use rv_text::Sink;

#[test]
fn a_set_has_its_lines_the_last_used_first(rt: HostRuntime) {
    let lines = [
        CacheLine {
            number: 11,
            dirty: true,
        },
        CacheLine {
            number: 10,
            dirty: false,
        },
        CacheLine {
            number: 12,
            dirty: true,
        },
    ];
    let mut text = Vec::new(rt.alloc());
    write_set(&mut Sink::new(&mut text), 3, &lines);
    let expected = b"{\"set\":3,\"lines\":[{\"line\":11,\"dirty\":true},\
{\"line\":10,\"dirty\":false},{\"line\":12,\"dirty\":true}]}\n";
    expect_text(&rt, &text, expected);
}
