ghost use Rattle.std.specs.Prelude.{◌≡◌, ◌++◌, codes};
ghost use Rattle.rv_log.specs.Command.{letter_of};

/// A stage of an instruction's way through the hardware.
#[derive(Clone, Copy)]
pub(crate) enum Stage {
    Fetch,
    Dispatch,
    /// From the issue on.
    Execution,
    /// The result is ready and waits for the common data bus.
    BusWait,
    Broadcast,
    Retirement,
}

impl Stage {
    /// What stands after the number in the line of a stage that begins: the lane, which is 0, and the letter of the stage.
    #[tactic(auto, unfolding(crate::specs::Command::letter_of))]
    pub(crate) fn after_number(self) -> &'static [u8; 5]
        ensures { result.now ≡ codes "\t0\t" ++ (letter_of self ++ codes "\n") }
    {
        match self {
            Stage::Fetch => b"\t0\tF\n",
            Stage::Dispatch => b"\t0\tD\n",
            Stage::Execution => b"\t0\tX\n",
            Stage::BusWait => b"\t0\tW\n",
            Stage::Broadcast => b"\t0\tB\n",
            Stage::Retirement => b"\t0\tC\n",
        }
    }
}
