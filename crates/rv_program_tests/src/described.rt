use crate::helpers::WHOLE;
use rv_command::Command;
use rv_isa::{PredictorKind, PredictorValues};
use rv_job::FaultLines;
use rv_program::begin;
use std::alloc::Global;
use std::process::Abort;

const COMMANDS: [Command; 5] = [
    WHOLE,
    Command::Check,
    Command::Picture {
        text: true,
        retired: false,
        path: false,
        from: 0,
        cycles: 1,
    },
    Command::Log { limit: 1 },
    Command::Explain {
        figures: false,
        path: false,
        limit: 1,
    },
];

// The predictor that the task of a command on an input has.
fn predictor(alloc: Global, command: &Command, input: &[u8]) -> Option<PredictorValues> {
    let mut errors = FaultLines::new(Vec::new(alloc));
    let task = begin(alloc, command, input, &mut errors).ok()?;
    let predictor = task.predictor();
    // By one call, as in `run`.
    drop(task);
    Some(predictor)
}

// Checks the predictor that the task of each command on a text has.
fn check_predictor(rt: &impl Abort, alloc: Global, text: &str, described: PredictorValues) {
    for command in &COMMANDS {
        let found = predictor(alloc, command, text.as_bytes());
        assert!(rt; found == Some(described), "{text}");
    }
}

#[test]
fn a_task_has_the_predictor_that_is_described(rt: HostRuntime) {
    static CASES: [(&str, PredictorKind, u32); 4] = [
        ("ebreak\n", PredictorKind::Bimodal, 64),
        (
            "predictor.entries = 7\n%%\nebreak\n",
            PredictorKind::Bimodal,
            7,
        ),
        (
            "predictor.kind = \"not_taken\"\n%%\nebreak\n",
            PredictorKind::NotTaken,
            64,
        ),
        (
            "predictor.kind = \"backward_taken\"\n%%\nebreak\n",
            PredictorKind::BackwardTaken,
            64,
        ),
    ];
    for (text, kind, entries) in &CASES {
        let described = PredictorValues {
            kind: *kind,
            entries: *entries,
        };
        check_predictor(&rt, rt.alloc(), text, described);
    }
}
