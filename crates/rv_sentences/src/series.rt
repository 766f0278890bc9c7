ghost use Rattle.std.specs.Prelude.{◌≡◌, ◌+◌, ◌<◌, ◌^◌, [], IfSome};
ghost use Rattle.rv_sentences.specs.Series.{continued, series_from, series_with};

/// Events of one kind.
#[derive(Clone, Copy)]
pub struct Series<E> {
    /// How many there were, one at least.
    pub count: u64,
    /// The first.
    pub first: E,
    /// The last.
    pub last: E,
}

impl<E: Copy + Drop> Series<E> {
    /// The series of one event.
    pub fn begin(event: E) -> Series<E>
        ensures { result ≡ series_from event [] }
    {
        Series {
            count: 1,
            first: event,
            last: event,
        }
    }

    /// Adds an event.
    pub fn go_on(&mut self, event: E)
        requires room { self.old.count + 1 < 2 ^ 64 }
        ensures { self.new ≡ continued event self.old }
    {
        self.count += 1;
        self.last = event;
    }
}

/// Adds an event to a series, or begins one.
pub fn with_event<E: Copy + Drop>(series: Option<Series<E>>, event: E) -> Option<Series<E>>
    requires room { IfSome series (λ s. s.count + 1 < 2 ^ 64) }
    ensures { result ≡ series_with event series }
{
    match series {
        None => Some(Series::begin(event)),
        Some(mut series) => {
            series.go_on(event);
            Some(series)
        }
    }
}
