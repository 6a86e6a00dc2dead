//! What runs of scripts ask of a world.

use base_items::{ItemSort, MAX_ARCS, MAX_NODES, MAX_STAMP};
use lgf_file::Doc;
use report_text::{Reply, StepFault};
use script_words::Command;
use std::alloc::{AllocError, Global};

/// What a run of a script asks of a world: it is loaded from a document and some boxes, and makes
/// steps.
pub trait Desk: Drop {
    ghost use Rattle.std.specs.Prelude.{◌≡◌, ◌+◌, ◌^◌, ◌<◌, ◌≤◌, List, true, IfOk, IfErr};
    ghost use Rattle.lgf_file.specs.Documents.{IsDoc};
    ghost use Rattle.script_words.specs.Valid.{IsValid};
    ghost use Rattle.plain_digraph.specs.Items.{count_of};
    ghost use Rattle.script_words.specs.declared.commands.GuardWord.{GuardWord};
    ghost use Rattle.plain_world.specs.World.{World as PlainWorld};
    ghost use Rattle.plain_world.specs.Documents.{load as loaded_of};
    ghost use Rattle.plain_world.specs.Steps.{Step};
    ghost use Rattle.plain_world.specs.declared.answers.Answer.TheVariants.{Answered};
    ghost use Rattle.plain_machine.specs.Built.{is_built, RefusedBy};

    /// The boxes that it is loaded with.
    type Pool: Drop;

    /// The plain world that it stands for.
    ghost plain: { Self → PlainWorld };

    /// Its seats are in step with its digraph and its tables.
    ghost in_step: { Self → Type 0 };

    /// The kinds of the boxes.
    ghost kinds: { Self.Pool → List GuardWord };

    /// Each box is a guard that was told nothing.
    ghost untold: { Self.Pool → Type 0 };

    /// The world of a valid document, with these boxes.
    fn load(alloc: Global, doc: Doc, pool: Self::Pool) -> Result<Self, AllocError>
        requires doc { IsDoc doc }
        requires untold { untold pool }
        ensures loaded { IfOk result (λ desk. plain desk ≡ loaded_of doc (kinds pool)) }
        ensures in_step { IfOk result in_step }
        ensures stamps { IfOk result (λ desk. (plain desk).graph.stamps ≤ MAX_NODES + MAX_ARCS) };

    /// Whether the command is one that it runs.
    fn built(command: &Command) -> bool
        ensures { result ≡ is_built command.now };

    /// How many items of the sort are live.
    fn live(&self, sort: ItemSort) -> u32
        ensures { result ≡ count_of (plain self.now).graph sort };

    /// What the command answers. It needs 2^24 stamps, and uses fewer. After a refusal, and where
    /// memory runs out, the plain world is as before.
    fn step(&mut self, alloc: Global, command: &Command) -> Result<Reply, StepFault>
        requires built { is_built command.now ≡ true }
        requires valid { IsValid command.now }
        requires in_step { in_step self.old }
        requires stamps { (plain self.old).graph.stamps + 2 ^ 24 ≤ MAX_STAMP }
        ensures answered { IfOk result (λ reply.
            Step (plain self.old) command.now (Answered reply) (plain self.new)) }
        ensures refused { IfErr result (RefusedBy (plain self.old) command.now (plain self.new)) }
        ensures in_step { in_step self.new }
        ensures stamps { (plain self.new).graph.stamps < (plain self.old).graph.stamps + 2 ^ 24 };
}
