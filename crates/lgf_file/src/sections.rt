//! The lines of a graph file by their kinds, and where its sections begin.

ghost use Rattle.std.specs.Prelude.{◌≡◌, ◌+◌, ◌≤◌, ℕ, length, option_map, IfSome};
ghost use Rattle.token_text.specs.Lines.{lines_of};
ghost use Rattle.lgf_file.specs.Sections as spec;
ghost use Rattle.lgf_file.specs.Found as sought;

use token_text::{after_blanks, is_passed_over, next_line, split_word};

/// The kinds of sections that are read.
#[derive(Clone, Copy, Debug, PartialEq, Eq)]
pub enum Section {
    Nodes,
    Arcs,
    Attributes,
}

/// What a line is.
#[derive(Clone, Copy, Debug, PartialEq, Eq)]
pub enum LineKind {
    /// A blank line or a comment.
    Passed,
    /// The first line of a section; None for one that isn't read.
    Opens(Option<Section>),
    /// A row of the section around it.
    Row,
}

fn section_named(name: &[u8]) -> Option<Section>
    ensures { result ≡ spec.section_named name.now }
{
    if name == b"nodes".as_slice() {
        Some(Section::Nodes)
    } else if name == b"arcs".as_slice() || name == b"edges".as_slice() {
        Some(Section::Arcs)
    } else if name == b"attributes".as_slice() {
        Some(Section::Attributes)
    } else {
        None
    }
}

// The bytes up to the first blank.
fn name_of(text: &[u8]) -> &[u8]
    ensures { result.now ≡ spec.name_of text.now }
{
    split_word(text).0
}

/// What the line is.
pub fn kind_of(line: &[u8]) -> LineKind
    ensures { result ≡ spec.kind_of line.now }
{
    if is_passed_over(line) {
        return LineKind::Passed;
    }
    match after_blanks(line).split_first() {
        Some((b'@', rest)) => LineKind::Opens(section_named(name_of(rest))),
        _ => LineKind::Row,
    }
}

fn is_opened_by(section: Section, kind: LineKind) -> bool
    ensures { result ≡ spec.is_opened_by section kind }
{
    match kind {
        LineKind::Opens(Some(opened)) => match section {
            Section::Nodes => matches!(opened, Section::Nodes),
            Section::Arcs => matches!(opened, Section::Arcs),
            Section::Attributes => matches!(opened, Section::Attributes),
        },
        LineKind::Opens(None) => false,
        LineKind::Passed => false,
        LineKind::Row => false,
    }
}

/// Where a section begins: the number of its first line, and the bytes behind this line.
#[derive(Clone, Copy)]
pub struct Begun<'a> {
    pub at: u64,
    pub rest: &'a [u8],
}

/// The first section of each kind, and the number of lines and one more.
#[derive(Clone, Copy)]
pub struct Sections<'a> {
    pub nodes: Option<Begun<'a>>,
    pub arcs: Option<Begun<'a>>,
    pub attributes: Option<Begun<'a>>,
    pub end: u64,
}

// The section that was found, or else this one if a line of this kind opens it.
fn found_or<'a>(
    found: Option<Begun<'a>>,
    section: Section,
    kind: LineKind,
    here: Begun<'a>,
) -> Option<Begun<'a>>
    ensures found { option_map (λ b. sought.section_at b.at b.rest.now) result
        ≡ sought.found_or (option_map (λ b. sought.section_at b.at b.rest.now) found.entry)
        (spec.is_opened_by section kind) (sought.section_at here.entry.at here.entry.rest.now) }
    ensures room { (most : ℕ) → IfSome found.entry (λ b. b.at + length b.rest.now ≤ most)
        → here.entry.at + length here.entry.rest.now ≤ most
        → IfSome result (λ b. b.at + length b.rest.now ≤ most) }
{
    let opens = is_opened_by(section, kind);
    match found {
        Some(begun) => Some(begun),
        None => { if opens { Some(here) } else { None } }
    }
}

/// The first section of each kind.
pub fn find_sections(bytes: &[u8]) -> Sections<'_>
    ensures nodes { spec.part Section.Nodes (lines_of bytes.now)
        ≡ option_map (λ b. sought.section_at b.at b.rest.now) result.nodes }
    ensures arcs { spec.part Section.Arcs (lines_of bytes.now)
        ≡ option_map (λ b. sought.section_at b.at b.rest.now) result.arcs }
    ensures attributes { spec.part Section.Attributes (lines_of bytes.now)
        ≡ option_map (λ b. sought.section_at b.at b.rest.now) result.attributes }
    ensures nodes_room { IfSome result.nodes (λ b. b.at + length b.rest.now ≤ length bytes.now) }
    ensures arcs_room { IfSome result.arcs (λ b. b.at + length b.rest.now ≤ length bytes.now) }
    ensures attributes_room { IfSome result.attributes (λ b.
        b.at + length b.rest.now ≤ length bytes.now) }
    ensures end { result.end ≡ length (lines_of bytes.now) + 1 }
{
    let mut nodes = None;
    let mut arcs = None;
    let mut attributes = None;
    let mut at: u64 = 1;
    let mut rest = bytes;
    'lines: while let Some((line, after)) = next_line(rest) {
        let kind = kind_of(line);
        let here = Begun { at, rest: after };
        nodes = found_or(nodes, Section::Nodes, kind, here);
        arcs = found_or(arcs, Section::Arcs, kind, here);
        attributes = found_or(attributes, Section::Attributes, kind, here);
        at += 1;
        rest = after;
    }
    Sections {
        nodes,
        arcs,
        attributes,
        end: at,
    }
}
