ghost use Rattle.std.specs.Prelude.{◌≡◌};
ghost use Rattle.rv_states.specs.Page.{after_lines, before_lines};
ghost use Rattle.rv_states.specs.declared.viewer.TheConstants.{AFTER, BEFORE};
ghost use Rattle.rv_text.specs.Said.{Says};

use crate::form::Form;
use crate::viewer::{AFTER, BEFORE};
use rv_text::Sink;
use std::io::Write;

fn viewer_before() -> &'static [u8]
    ensures { result.now ≡ BEFORE.now }
{
    BEFORE
}

fn viewer_after() -> &'static [u8]
    ensures { result.now ≡ AFTER.now }
{
    AFTER
}

/// Writes what stands before the lines.
#[tactic(auto, unfolding(crate::specs::Page::before_lines))]
pub(crate) fn write_before<W: Write>(out: &mut Sink<'_, W>, form: Form)
    ensures { Says W.contents out.old out.new (before_lines form) }
{
    match form {
        Form::Lines => {}
        Form::Page => out.put(viewer_before()),
    }
}

/// Writes what stands after the lines.
#[tactic(auto, unfolding(crate::specs::Page::after_lines))]
pub(crate) fn write_after<W: Write>(out: &mut Sink<'_, W>, form: Form)
    ensures { Says W.contents out.old out.new (after_lines form) }
{
    match form {
        Form::Lines => {}
        Form::Page => out.put(viewer_after()),
    }
}
