use crate::json::expect_text;
use rv_arch::Stop;
use rv_states::write_stop;
use rv_text::Sink;

static STOPS: [(Stop, &[u8]); 4] = [
    (Stop::Limit, b"{\"cycles\":9,\"stop\":\"limit\"}\n"),
    (
        Stop::Breakpoint,
        b"{\"cycles\":9,\"stop\":\"breakpoint\"}\n",
    ),
    (Stop::Stale(8), b"{\"cycles\":9,\"stop\":\"stale\"}\n"),
    (Stop::Exhausted, b"{\"cycles\":9,\"stop\":\"exhausted\"}\n"),
];

#[test]
fn the_last_line_says_why_the_run_ended(rt: HostRuntime) {
    for (stop, line) in &STOPS {
        let mut text = Vec::new(rt.alloc());
        write_stop(&mut Sink::new(&mut text), 9, *stop);
        expect_text(&rt, &text, line);
    }
}
