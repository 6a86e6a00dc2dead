//! The command that the words of a form say.
//!
//! There is a table for each number of words.

ghost use Rattle.std.specs.Prelude.{◌≡◌, ℕ, true, length, IfOk};
ghost use Rattle.script_words.specs.Lines.{Matches, command_of};
ghost use Rattle.script_words.specs.Slots.{is_amount, number_of};

use crate::commands::{Command, GuardWord, LayerWord};
use crate::forms::Form;
use crate::words::{amount_of, direction_of, map_of, sort_of, text_at, type_of};
use base_items::ItemSort;
use std::alloc::{AllocError, Global};
use token_text::{Text, Token};

/// The command that these words say in this form.
pub fn build(alloc: Global, form: Form, words: &[Token]) -> Result<Command, AllocError>
    requires { Matches form words.now }
    ensures { IfOk result (λ command. command ≡ command_of form words.now) }
{
    match words.len() {
        1 => Ok(of_one_word(form, words)),
        2 => of_two_words(alloc, form, words),
        3 => of_three_words(alloc, form, words),
        4 => of_four_words(alloc, form, words),
        5 => of_five_words(alloc, form, words),
        6 => of_six_words(alloc, form, words),
        7 => of_seven_words(alloc, form, words),
        _ => of_eight_words(alloc, form, words),
    }
}

// The command of a form of one word.
fn of_one_word(form: Form, words: &[Token]) -> Command
    requires form { Matches form words.now }
    requires whole { length words.now ≡ 1 }
    ensures { result ≡ command_of form words.now }
{
    match form {
        Form::Clear => Command::Clear,
        Form::Guards => Command::Guards,
        Form::Snaps => Command::Snaps,
        _ => unreachable!(),
    }
}

// The command of a form of two words.
fn of_two_words(alloc: Global, form: Form, words: &[Token]) -> Result<Command, AllocError>
    requires form { Matches form words.now }
    requires whole { length words.now ≡ 2 }
    ensures { IfOk result (λ command. command ≡ command_of form words.now) }
{
    let first = text_at(alloc, words, 1)?;
    Ok(match form {
        Form::AddNode => Command::AddNode(first),
        Form::DelNode => Command::DelNode(first),
        Form::DelArc => Command::DelArc(first),
        Form::Turn => Command::Turn(first),
        Form::Unguard => Command::Unguard(first),
        Form::Snap => Command::Snap(first),
        Form::Restore => Command::Restore(first),
        Form::Forget => Command::Forget(first),
        Form::Keep => Command::Keep(first),
        Form::Unview => Command::Unview(first),
        Form::Nodes => Command::Nodes(first),
        Form::Arcs => Command::Arcs(first),
        Form::Untie => Command::Untie(first),
        Form::Attr => Command::Attr(first),
        Form::Save => Command::Save(first),
        _ => unreachable!(),
    })
}

// The command of a form of three words.
fn of_three_words(alloc: Global, form: Form, words: &[Token]) -> Result<Command, AllocError>
    requires form { Matches form words.now }
    requires whole { length words.now ≡ 3 }
    ensures { IfOk result (λ command. command ≡ command_of form words.now) }
{
    let first = text_at(alloc, words, 1)?;
    let second = text_at(alloc, words, 2)?;
    Ok(match form {
        Form::Source => Command::Source(first, second),
        Form::Target => Command::Target(first, second),
        Form::Contract => Command::Contract(first, second, false),
        Form::SplitNode => Command::SplitNode(first, second, None),
        Form::NodeMap => Command::NodeMap(first, type_of(&second)),
        Form::ArcMap => Command::ArcMap(first, type_of(&second)),
        Form::Degree => Command::Degree(first, direction_of(&second)),
        Form::Items => Command::Items(sort_of(&first), second),
        Form::DropMap => Command::DropMap(sort_of(&first), second),
        Form::Total => Command::Total(sort_of(&first), second),
        Form::Least => Command::Least(sort_of(&first), second),
        Form::Count => Command::Count(sort_of(&first), second),
        Form::Out => Command::Out(first, second),
        Form::In => Command::In(first, second),
        Form::Match => Command::Match(first, second),
        Form::MeanCycle => Command::MeanCycle(first, second, None),
        Form::Tie => Command::Tie(first, sort_of(&second)),
        _ => unreachable!(),
    })
}

// The command of a form of four words.
fn of_four_words(alloc: Global, form: Form, words: &[Token]) -> Result<Command, AllocError>
    requires form { Matches form words.now }
    requires whole { length words.now ≡ 4 }
    ensures { IfOk result (λ command. command ≡ command_of form words.now) }
{
    let first = text_at(alloc, words, 1)?;
    let second = text_at(alloc, words, 2)?;
    let third = text_at(alloc, words, 3)?;
    Ok(match form {
        Form::AddArc => Command::AddArc(first, second, third),
        Form::ContractLoops => Command::Contract(first, second, true),
        Form::SplitNodeArc => Command::SplitNode(first, second, Some(third)),
        Form::SplitArc => Command::SplitArc(first, second, third),
        Form::Retype => Command::Retype(sort_of(&first), second, type_of(&third)),
        Form::Get => Command::Get(sort_of(&first), second, third),
        Form::Trues => Command::Trues(sort_of(&first), second, third),
        Form::NodeTally => Command::Guard(first, ItemSort::Node, GuardWord::Tally, None),
        Form::ArcLoopless => Command::Guard(first, ItemSort::Arc, GuardWord::Loopless, None),
        Form::ArcSimple => Command::Guard(first, ItemSort::Arc, GuardWord::Simple, None),
        Form::ArcTally => Command::Guard(first, ItemSort::Arc, GuardWord::Tally, None),
        Form::ViewReverse => Command::View(first, LayerWord::Reverse, third),
        Form::ViewUndirect => Command::View(first, LayerWord::Undirect, third),
        Form::ViewSplit => Command::View(first, LayerWord::Split, third),
        Form::Dijkstra => Command::Dijkstra(first, second, third),
        Form::Bellman => Command::Bellman(first, second, third),
        Form::Heaviest => Command::Heaviest(first, second, third),
        Form::Assign => Command::Assign(first, second, third),
        Form::MeanCycleTime => Command::MeanCycle(first, second, Some(third)),
        Form::Relabel => Command::Relabel(sort_of(&first), second, third),
        _ => unreachable!(),
    })
}

// The command of a form of five words.
fn of_five_words(alloc: Global, form: Form, words: &[Token]) -> Result<Command, AllocError>
    requires form { Matches form words.now }
    requires whole { length words.now ≡ 5 }
    ensures { IfOk result (λ command. command ≡ command_of form words.now) }
{
    let first = text_at(alloc, words, 1)?;
    let second = text_at(alloc, words, 2)?;
    let third = text_at(alloc, words, 3)?;
    let fourth = text_at(alloc, words, 4)?;
    Ok(match form {
        Form::Set => Command::Set(sort_of(&first), second, third, fourth),
        Form::NodeQuota => numbered(first, ItemSort::Node, GuardWord::Quota, &fourth),
        Form::NodeFuse => numbered(first, ItemSort::Node, GuardWord::Fuse, &fourth),
        Form::ArcQuota => numbered(first, ItemSort::Arc, GuardWord::Quota, &fourth),
        Form::ArcOutCap => numbered(first, ItemSort::Arc, GuardWord::OutCap, &fourth),
        Form::ArcFuse => numbered(first, ItemSort::Arc, GuardWord::Fuse, &fourth),
        Form::MaxFlow => Command::MaxFlow(first, second, third, fourth, None),
        Form::Circulate => Command::Circulate(
            first,
            map_of(second),
            map_of(third),
            map_of(fourth),
            None,
        ),
        _ => unreachable!(),
    })
}

// The command of a form of six words.
fn of_six_words(alloc: Global, form: Form, words: &[Token]) -> Result<Command, AllocError>
    requires form { Matches form words.now }
    requires whole { length words.now ≡ 6 }
    ensures { IfOk result (λ command. command ≡ command_of form words.now) }
{
    let first = text_at(alloc, words, 1)?;
    let second = text_at(alloc, words, 2)?;
    let third = text_at(alloc, words, 3)?;
    let fourth = text_at(alloc, words, 4)?;
    let fifth = text_at(alloc, words, 5)?;
    Ok(match form {
        Form::ViewSub => {
            let layer = LayerWord::Sub(map_of(fourth), map_of(fifth));
            Command::View(first, layer, third)
        }
        Form::ViewResidual => Command::View(first, LayerWord::Residual(fourth, fifth), third),
        Form::MinCost => Command::MinCost(
            first,
            map_of(second),
            map_of(third),
            fourth,
            map_of(fifth),
            None,
        ),
        Form::Simplex => Command::Simplex(
            first,
            map_of(second),
            map_of(third),
            fourth,
            map_of(fifth),
            None,
        ),
        _ => unreachable!(),
    })
}

// The command of a form of seven words.
fn of_seven_words(alloc: Global, form: Form, words: &[Token]) -> Result<Command, AllocError>
    requires form { Matches form words.now }
    requires whole { length words.now ≡ 7 }
    ensures { IfOk result (λ command. command ≡ command_of form words.now) }
{
    let first = text_at(alloc, words, 1)?;
    let second = text_at(alloc, words, 2)?;
    let third = text_at(alloc, words, 3)?;
    let fourth = text_at(alloc, words, 4)?;
    let sixth = text_at(alloc, words, 6)?;
    Ok(match form {
        Form::MaxFlowInto => Command::MaxFlow(first, second, third, fourth, Some(sixth)),
        Form::CirculateInto => Command::Circulate(
            first,
            map_of(second),
            map_of(third),
            map_of(fourth),
            Some(sixth),
        ),
        _ => unreachable!(),
    })
}

// The command of a form of eight words.
fn of_eight_words(alloc: Global, form: Form, words: &[Token]) -> Result<Command, AllocError>
    requires form { Matches form words.now }
    requires whole { length words.now ≡ 8 }
    ensures { IfOk result (λ command. command ≡ command_of form words.now) }
{
    let first = text_at(alloc, words, 1)?;
    let second = text_at(alloc, words, 2)?;
    let third = text_at(alloc, words, 3)?;
    let fourth = text_at(alloc, words, 4)?;
    let fifth = text_at(alloc, words, 5)?;
    let seventh = text_at(alloc, words, 7)?;
    Ok(match form {
        Form::MinCostInto => Command::MinCost(
            first,
            map_of(second),
            map_of(third),
            fourth,
            map_of(fifth),
            Some(seventh),
        ),
        Form::SimplexInto => Command::Simplex(
            first,
            map_of(second),
            map_of(third),
            fourth,
            map_of(fifth),
            Some(seventh),
        ),
        _ => unreachable!(),
    })
}

// The command that adds a guard of a kind that has a number, by the word that says the number.
fn numbered(name: Text, sort: ItemSort, kind: GuardWord, number: &Text) -> Command
    ensures { (low high : ℕ) → is_amount low high number.now ≡ true
        → result ≡ Command.Guard name sort kind (Some (number_of number.now)) }
{
    Command::Guard(name, sort, kind, amount_of(number))
}
