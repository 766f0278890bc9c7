ghost use Rattle.std.specs.Prelude.{◌≡◌};
ghost use Rattle.rv_sentences.specs.Head.{account_of, flusher_in, head_word};

use rv_passage::Passage;
use rv_sentences::flusher_after;
use rv_watch::ShownHardware;

// The word of the instruction at the head of the reorder buffer.
fn head_word(hardware: &ShownHardware<'_>) -> Option<u32>
    ensures { result ≡ head_word hardware.now }
{
    let head = hardware.reorder_buffer().head()?;
    Some(head.pc / 4)
}

/// The word that the last cycle is on account of, and what had flushed the buffer if it is empty after it; by the
/// passages at the cycle's end and by what had flushed the buffer before.
pub(crate) fn accounts_of(
    hardware: &ShownHardware<'_>,
    rows: &[Passage],
    before: Option<u32>,
) -> (Option<u32>, Option<u32>)
    ensures account { result.0 ≡ account_of hardware.now rows.now before }
    ensures flusher { result.1 ≡ flusher_in hardware.now rows.now before }
{
    match head_word(hardware) {
        Some(word) => (Some(word), None),
        None => {
            let flusher = flusher_after(rows, before);
            (flusher, flusher)
        }
    }
}
