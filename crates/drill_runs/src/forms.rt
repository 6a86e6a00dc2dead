//! The lines of a drill as tables.

ghost use Rattle.std.specs.Prelude.{◌≡◌, ◌<◌, [], get_or};
ghost use Rattle.plain_machine.specs.Drill as spec;

use plain_machine::DrillWord;

/// A form of lines: the command, and the words behind it.
#[derive(Clone, Copy)]
pub struct Form {
    pub command: &'static [u8],
    pub words: &'static [DrillWord],
}

impl Form {
    fn of(command: &'static [u8], words: &'static [DrillWord]) -> Form
        ensures command { result.command.now ≡ command.now }
        ensures words { result.words.now ≡ words.now }
    {
        Form { command, words }
    }
}

const NO_WORDS: &[DrillWord] = &[];

const NEW_NODE: &[DrillWord] = &[DrillWord::New(b'n')];

const NEW_ARC: &[DrillWord] = &[DrillWord::New(b'a'), DrillWord::Node, DrillWord::Node];

const ARC: &[DrillWord] = &[DrillWord::Arc];

const ARC_AND_NODE: &[DrillWord] = &[DrillWord::Arc, DrillWord::Node];

const TWO_NODES: &[DrillWord] = &[DrillWord::Node, DrillWord::Node];

const SPLIT_ARC: &[DrillWord] = &[DrillWord::Arc, DrillWord::New(b'm'), DrillWord::New(b'b')];

const SPLIT_NODE: &[DrillWord] = &[DrillWord::Node, DrillWord::New(b'm'), DrillWord::New(b'b')];

/// The form that this number draws.
pub fn form_at(number: u64) -> Form
    requires { number < 12 }
    ensures command { result.command.now ≡ (spec.form_at number).command }
    ensures words { result.words.now ≡ (spec.form_at number).words }
{
    match number {
        0 => Form::of(b"addnode", NEW_NODE),
        1 => Form::of(b"addarc", NEW_ARC),
        2 => Form::of(b"delarc", ARC),
        3 => Form::of(b"source", ARC_AND_NODE),
        4 => Form::of(b"target", ARC_AND_NODE),
        5 => Form::of(b"turn", ARC),
        6 => Form::of(b"splitarc", SPLIT_ARC),
        7 => Form::of(b"contract", TWO_NODES),
        8 => Form::of(b"snap s", NO_WORDS),
        9 => Form::of(b"restore s", NO_WORDS),
        10 => Form::of(b"forget s", NO_WORDS),
        _ => Form::of(b"splitnode", SPLIT_NODE),
    }
}

/// How many lines stand before those that are drawn.
pub const FIRST_LINES: u32 = 7;

/// One of the lines before those that are drawn.
pub fn first_line(place: u32) -> &'static [u8]
    requires { place < FIRST_LINES }
    ensures { result.now ≡ get_or spec.first_lines place [] }
{
    match place {
        0 => b"type arc cap int",
        1 => b"type arc cost int",
        2 => b"guard q arc quota 600",
        3 => b"guard f node fuse 50",
        4 => b"guard t arc tally",
        5 => b"degree d out",
        _ => b"view r reverse base",
    }
}
