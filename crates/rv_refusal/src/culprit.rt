ghost use Rattle.std.specs.Prelude.{◌≡◌, option_map};
ghost use Rattle.std.specs.List.{list_all};
ghost use Rattle.rv_asm.specs.Meaning.{fits_width};
ghost use Rattle.rv_asm.specs.Read.{operand_of, tokens_in};
ghost use Rattle.rv_asm.specs.Statement.{is_implied};
ghost use Rattle.rv_refusal.specs.NameSet.{holds};
ghost use Rattle.rv_refusal.specs.Culprit.{Answers, culprit_among, culprit_of, culprit_on, faulty_value, first_operand};
ghost use Rattle.rv_refusal.specs.Culprit.{first_symbolic, fixed_places};
ghost use Rattle.rv_refusal.specs.Culprit.{has_unknown_register, holds_register, holds_value, is_culprit, is_last};
ghost use Rattle.rv_refusal.specs.Culprit.{is_misfit, is_of_operands, is_past_csrs, is_symbolic, is_too_wide};
ghost use Rattle.rv_refusal.specs.Culprit.{is_undefined, symbolic_value};
ghost use Rattle.rv_refusal.specs.Culprit.{is_wrong_value, marked, may_be_out_of_range, operand_of_fault};
ghost use Rattle.rv_refusal.specs.Culprit.{operands_left, operands_on, wrong_value};
ghost use Rattle.rv_refusal.specs.OrElse.{or_else};

use crate::definition::definition_on;
use crate::name_set::NameSet;
use crate::operand_tokens::{after_operand, from_register, operand_at, operands_on};
use crate::statement::after_labels;
use rv_asm::{
    AsmFault, Expression, Form, Operand, Place, Token, form_named, piece_count, register_named,
};
use rv_isa::Width;

fn holds_value(place: Place) -> bool
    ensures { result ≡ holds_value place }
{
    matches!(
        place,
        Place::Value | Place::Known | Place::Target | Place::Address | Place::Base
    )
}

fn holds_register(place: Place) -> bool
    ensures { result ≡ holds_register place }
{
    matches!(
        place,
        Place::Rd | Place::Rs1 | Place::Rs2 | Place::Address | Place::Base
    )
}

// Whether a name is written in the place of a register that is none.
fn has_unknown_register(written: Option<Operand<'_>>) -> bool
    ensures { result ≡ has_unknown_register (option_map operand_of written.entry) }
{
    match written {
        Some(Operand::Value(Expression::Symbol(name)) | Operand::Indirect(_, name)) => {
            register_named(name).is_none()
        }
        _ => false,
    }
}

// Whether a number is written that no CSR has.
fn is_past_csrs(written: Option<Operand<'_>>) -> bool
    ensures { result ≡ is_past_csrs (option_map operand_of written.entry) }
{
    match written {
        Some(Operand::Value(Expression::Number(number))) => number < 0 || number > 4095,
        _ => false,
    }
}

// Whether no operand is written that a place takes.
fn is_misfit(place: Place, written: Option<Operand<'_>>) -> bool
    ensures { result ≡ is_misfit place (option_map operand_of written.entry) }
{
    match written {
        Some(operand) => !place.takes(operand),
        None => true,
    }
}

// Whether what is written at a place is the value that may be out of range.
fn may_be_out_of_range(place: Place, written: Option<Operand<'_>>) -> bool
    ensures { result ≡ may_be_out_of_range place (option_map operand_of written.entry) }
{
    match place {
        Place::Csr => is_past_csrs(written),
        _ => holds_value(place),
    }
}

// Whether an operand at a place is the one for which a fault is reported, if those before it are not.
#[tactic(auto, unfolding(crate::specs::Culprit::is_culprit))]
fn is_culprit(fault: AsmFault, place: Place, written: Option<Operand<'_>>) -> bool
    ensures { result ≡ is_culprit fault place (option_map operand_of written.entry) }
{
    match fault {
        AsmFault::BadOperands => is_misfit(place, written),
        AsmFault::BadRegister => holds_register(place) && has_unknown_register(written),
        AsmFault::UnknownSymbol => holds_value(place),
        AsmFault::OutOfRange => may_be_out_of_range(place, written),
        _ => false,
    }
}

fn are_implied(places: &[Place]) -> bool
    ensures { result ≡ list_all is_implied places.now }
{
    places.iter().all(|place| place.is_implied())
}

// Whether an operand is the last one, and no place after its own needs another.
fn is_last(places: &[Place], operands: Option<&[Token<'_>]>) -> bool
    ensures { result ≡ is_last places.now (operands_left operands.entry) }
{
    match operands {
        Some(_) => false,
        None => are_implied(places),
    }
}

// The operand for which a fault is reported, of operands at these places.
fn culprit_among<'t, 'a>(
    fault: AsmFault,
    places: &[Place],
    operands: Option<&'t [Token<'a>]>,
) -> Option<&'t [Token<'a>]>
    ensures { option_map (λ from. tokens_in from.now) result
        ≡ culprit_among fault places.now (operands_left operands.entry) }
{
    let Some(operand) = operands else {
        return None;
    };
    let [place, later @ ..] = places else {
        return Some(operand);
    };
    if place.is_implied() {
        return culprit_among(fault, later, operands);
    }
    let others = after_operand(operand);
    if is_culprit(fault, *place, operand_at(operand)) {
        return Some(operand);
    }
    if is_last(later, others) {
        return Some(operand);
    }
    culprit_among(fault, later, others)
}

fn fits_width(width: Width, number: i64) -> bool
    ensures { result ≡ fits_width width number }
{
    match width {
        Width::Byte => -128 <= number && number <= 255,
        Width::Half => -32768 <= number && number <= 65535,
        Width::Word => -2147483648 <= number && number <= 4294967295,
    }
}

// Whether a number is written that data of a width cannot hold.
fn is_too_wide(width: Width, written: Option<Operand<'_>>) -> bool
    ensures { result ≡ is_too_wide width (option_map operand_of written.entry) }
{
    match written {
        Some(Operand::Value(Expression::Number(number))) => !fits_width(width, number),
        _ => false,
    }
}

// Whether a symbol is written that is not defined.
fn is_undefined(defined: &NameSet<'_>, written: Option<Operand<'_>>) -> bool
    ensures { result ≡ is_undefined (holds defined.now) (option_map operand_of written.entry) }
{
    match written {
        Some(Operand::Value(Expression::Symbol(name) | Expression::Sum(name, _))) => {
            !defined.has(name)
        }
        _ => false,
    }
}

// Whether an operand of data of a width is one for which a fault is reported.
#[tactic(auto, unfolding(crate::specs::Culprit::is_wrong_value))]
fn is_wrong_value(
    fault: AsmFault,
    defined: &NameSet<'_>,
    width: Width,
    written: Option<Operand<'_>>,
) -> bool
    ensures { result ≡ is_wrong_value fault (holds defined.now) width (option_map operand_of written.entry) }
{
    match fault {
        AsmFault::BadOperands => is_misfit(Place::Value, written),
        AsmFault::UnknownSymbol => is_undefined(defined, written),
        AsmFault::OutOfRange => is_too_wide(width, written),
        _ => false,
    }
}

// The first operand that is sought.
fn first_operand<'t, 'a, F: Fn(Option<Operand<'a>>) -> bool>(
    operands: Option<&'t [Token<'a>]>,
    is_sought: F,
) -> Option<&'t [Token<'a>]>
    requires { F.IsAlwaysCallable is_sought }
    ensures { (question : _) → Answers (F.post is_sought) question
        → option_map (λ from. tokens_in from.now) result ≡ first_operand question (operands_left operands.entry) }
{
    let mut rest = operands;
    while let Some(operand) = rest {
        if is_sought(operand_at(operand)) {
            return Some(operand);
        }
        rest = after_operand(operand);
    }
    None
}

// The first operand of data of a width for which a fault is reported by what is written alone.
fn wrong_value<'t, 'a>(
    fault: AsmFault,
    defined: &NameSet<'_>,
    width: Width,
    operands: Option<&'t [Token<'a>]>,
) -> Option<&'t [Token<'a>]>
    ensures { option_map (λ from. tokens_in from.now) result
        ≡ wrong_value fault (holds defined.now) width (operands_left operands.entry) }
{
    first_operand(operands, |written| {
        is_wrong_value(fault, defined, width, written)
    })
}

// Whether a symbol is written.
fn is_symbolic(written: Option<Operand<'_>>) -> bool
    ensures { result ≡ is_symbolic (option_map operand_of written.entry) }
{
    matches!(
        written,
        Some(Operand::Value(Expression::Symbol(_) | Expression::Sum(_, _)))
    )
}

// The first operand with a symbol.
fn first_symbolic<'t, 'a>(operands: Option<&'t [Token<'a>]>) -> Option<&'t [Token<'a>]>
    ensures { option_map (λ from. tokens_in from.now) result ≡ first_symbolic (operands_left operands.entry) }
{
    first_operand(operands, |written| is_symbolic(written))
}

// The operand of data whose symbol is out of range, where no number is: it is known where no other has a symbol.
#[tactic(auto, unfolding(crate::specs::Culprit::symbolic_value))]
fn symbolic_value<'t, 'a>(
    fault: AsmFault,
    operands: Option<&'t [Token<'a>]>,
) -> Option<&'t [Token<'a>]>
    ensures { option_map (λ from. tokens_in from.now) result ≡ symbolic_value fault (operands_left operands.entry) }
{
    let AsmFault::OutOfRange = fault else {
        return None;
    };
    let symbolic = first_symbolic(operands)?;
    match first_symbolic(after_operand(symbolic)) {
        Some(_) => None,
        None => Some(symbolic),
    }
}

// The operand of data of a width for which a fault is reported, if it is known.
#[tactic(auto, unfolding(crate::specs::Culprit::faulty_value))]
fn faulty_value<'t, 'a>(
    fault: AsmFault,
    defined: &NameSet<'_>,
    width: Width,
    operands: Option<&'t [Token<'a>]>,
) -> Option<&'t [Token<'a>]>
    ensures { option_map (λ from. tokens_in from.now) result
        ≡ faulty_value fault (holds defined.now) width (operands_left operands.entry) }
{
    match wrong_value(fault, defined, width, operands) {
        Some(operand) => Some(operand),
        None => symbolic_value(fault, operands),
    }
}

// The places of so many operands of a form that has the same ones in each statement.
fn fixed_places(form: Form, count: usize) -> &'static [Place]
    ensures { result.now ≡ fixed_places form count }
{
    match form {
        Form::Jal => match count {
            1 => &[Place::Target],
            _ => &[Place::Rd, Place::Target],
        },
        Form::Jalr => match count {
            1 => &[Place::Rs1],
            2 => &[Place::Rd, Place::Base],
            _ => &[Place::Rd, Place::Rs1, Place::Value],
        },
        Form::Global => &[Place::Target],
        Form::Constant => &[Place::Target, Place::Number],
        _ => &[],
    }
}

// The operand of a form for which a fault is reported, of those that tokens spell.
#[tactic(auto, unfolding(crate::specs::Culprit::culprit_of))]
fn culprit_of<'t, 'a>(
    fault: AsmFault,
    defined: &NameSet<'_>,
    form: Form,
    tokens: &'t [Token<'a>],
) -> Option<&'t [Token<'a>]>
    ensures { option_map (λ from. tokens_in from.now) result
        ≡ culprit_of fault (holds defined.now) form (tokens_in tokens.entry.now) }
{
    let operands = operands_on(tokens);
    match form {
        Form::Instruction(_, first, second, third) => {
            culprit_among(fault, &[first, second, third], operands)
        }
        Form::Values(width) => faulty_value(fault, defined, width, operands),
        Form::Bytes(_, place) => culprit_among(fault, &[place], operands),
        Form::Nothing | Form::Jal | Form::Jalr | Form::Choice(_) | Form::Global | Form::Constant =>
            { culprit_among(fault, fixed_places(form, piece_count(tokens)), operands) }
    }
}

fn is_of_operands(fault: AsmFault) -> bool
    ensures { result ≡ is_of_operands fault }
{
    matches!(
        fault,
        AsmFault::BadOperands
            | AsmFault::BadRegister
            | AsmFault::UnknownSymbol
            | AsmFault::OutOfRange
    )
}

// The tokens of an operand from the one at fault on.
#[tactic(auto, unfolding(crate::specs::Culprit::marked))]
fn marked<'t, 'a>(fault: AsmFault, tokens: &'t [Token<'a>]) -> &'t [Token<'a>]
    ensures { tokens_in result.now ≡ marked fault (tokens_in tokens.entry.now) }
{
    match fault {
        AsmFault::BadRegister => from_register(tokens),
        _ => tokens,
    }
}

/// The operand of a statement for which a fault is reported, where these symbols are defined, from its token at fault on.
#[tactic(auto, unfolding(crate::specs::Culprit::operand_of_fault))]
pub(crate) fn operand_of_fault<'t, 'a>(
    fault: AsmFault,
    defined: &NameSet<'_>,
    body: &'t [Token<'a>],
) -> Option<&'t [Token<'a>]>
    ensures { option_map (λ from. tokens_in from.now) result
        ≡ operand_of_fault fault (holds defined.now) (tokens_in body.entry.now) }
{
    let [Token::Name(name), rest @ ..] = body else {
        return None;
    };
    if !is_of_operands(fault) {
        return None;
    }
    let form = form_named(name)?;
    let operand = culprit_of(fault, defined, form, rest)?;
    Some(marked(fault, operand))
}

// Tokens, where there are some, or else others.
fn or_else<'t, 'a>(tokens: &'t [Token<'a>], others: &'t [Token<'a>]) -> &'t [Token<'a>]
    ensures { tokens_in result.now ≡ or_else (tokens_in tokens.entry.now) (tokens_in others.entry.now) }
{
    match tokens {
        [] => others,
        _ => tokens,
    }
}

/// The tokens of a line from the one at fault on, if it is known.
#[tactic(auto, unfolding(crate::specs::Culprit::culprit_on))]
pub(crate) fn culprit_on<'t, 'a>(
    fault: AsmFault,
    defined: &NameSet<'_>,
    tokens: &'t [Token<'a>],
) -> Option<&'t [Token<'a>]>
    ensures { option_map (λ from. tokens_in from.now) result
        ≡ culprit_on fault (holds defined.now) (tokens_in tokens.entry.now) }
{
    if let AsmFault::DuplicateSymbol = fault {
        return definition_on(tokens);
    }
    let body = after_labels(tokens);
    match operand_of_fault(fault, defined, body) {
        Some(operand) => Some(operand),
        None => Some(or_else(body, tokens)),
    }
}
