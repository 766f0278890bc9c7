/// How the states of a run are written.
#[derive(Clone, Copy)]
pub enum Form {
    /// Lines of JSON.
    Lines,
    /// A page for a browser, with the same lines in it.
    Page,
}
