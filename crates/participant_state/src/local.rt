//! A participant's calls on one thread.
ghost use Rattle.std.specs.Prelude.{◌≡◌, ◌<◌, [], None, length, IfOk};
ghost use Rattle.participant_tables.specs.Named.{called_in};
ghost use Rattle.participant_tables.specs.ReadKept.{opening_reads};
ghost use Rattle.participant_tables.specs.Vertices.{opening_meshes};
ghost use Rattle.participant_tables.specs.WriteSteps.{opening_writes};
ghost use Rattle.wave_coupling.specs.Known.{read_entries};
ghost use Rattle.wave_coupling.specs.Posts.{received};
ghost use Rattle.participant_words.specs.Course.{opening};
ghost use Rattle.participant_words.specs.Questions.{source_of};
ghost use Rattle.coupled_loop.specs.PlanFrames.{group_of};
ghost use Rattle.std.specs.Prelude.{is_some};

use crate::asked::Asked;
use cpl_plan::{Fault, PartId, Plan, WatchRow};
use fixed_num::{Items, Memory};
use mesh_data::AnyMesh;
use participant_tables::{Clock, Names, OwnMeshes, Queue, ReadTable, WriteTable};
use participant_waves::{KeptInput, Passages};
use participant_words::Phase;
use std::alloc::Global;
use std::marker::Model;

/// A participant's calls on one thread.
///
/// What its events are answered is handed in: `next_event` gives the first event that waits, and
/// `take_reply` takes what it was answered. Contracts see its plan, its number and its course: what its
/// deeds have come to.
#[derive(Drop)]
pub struct Local {
    pub(crate) alloc: Global,
    pub(crate) plan: Plan,
    pub(crate) part: PartId,
    pub(crate) phase: Phase,
    pub(crate) names: Names,
    pub(crate) own: OwnMeshes,
    pub(crate) received: Items<AnyMesh>,
    /// The mappings and the watched vertices, once all meshes are there.
    pub(crate) passages: Option<Passages>,
    pub(crate) writes: WriteTable,
    pub(crate) reads: ReadTable,
    /// The mapped inputs of this turn, and the turns of the newest samples of those that came last.
    pub(crate) inputs: Vec<KeptInput>,
    pub(crate) sources: Vec<(u32, u32)>,
    /// The ends of the steps that were accepted in this turn.
    pub(crate) times: Vec<u64>,
    pub(crate) asked: Asked,
    pub(crate) clock: Clock,
    pub(crate) queue: Queue,
    /// The fault of the Stop that was queued for an overflow.
    pub(crate) overflow: Option<Fault>,
    pub(crate) steps: u64,
    pub(crate) rows: Vec<WatchRow>,
}

impl Model for Local {
    ghost use Rattle.std.specs.Prelude.{length, option_map};
    ghost use Rattle.participant_state.specs.Member.{Member};
    ghost use Rattle.participant_state.specs.Kept.{kind_out, asked_of, buffers_of, turn_of};
    ghost use Rattle.participant_state.specs.Together.{IsOfPlan, AreFilled, IsInTime, AreRead, AreJoined};
    ghost use Rattle.participant_state.specs.Agenda.{agenda, Stands, StandsIn};
    ghost use Rattle.call_parts.specs.RowsKept.{AreInOrder};
    ghost use Rattle.participant_words.specs.WatchShown.{watches};

    ghost Value = { Member };

    ghost view = { λ l. record {
      plan = l.plan;
      part = l.part;
      course = record {
        phase = l.phase;
        own = l.own;
        received = l.received;
        buffers = buffers_of l.writes;
        asked = asked_of l.asked;
        turn = turn_of l.clock l.inputs.items l.times.items l.writes;
        sources = l.sources.items;
        complete = l.clock.complete;
        queue = l.queue.waiting;
        out = option_map kind_out l.queue.out;
        overflow = l.overflow;
        steps = l.steps;
        rows = l.rows.items;
      };
    } };

    ghost invariant = { λ l. IsOfPlan l.plan l.part l.names l.own l.writes l.reads
        × AreFilled l.own l.writes l.times.items × IsInTime l.plan l.part l.clock l.times.items
        × AreRead l.own l.reads l.clock l.inputs.items × AreJoined l.plan l.part l.own l.received l.passages
        × Stands l.plan l.part l.own l.clock l.passages l.inputs.items l.times.items (agenda l.queue)
        × StandsIn l.plan l.part l.own l.clock l.passages l.inputs.items l.times.items l.phase (agenda l.queue)
        × AreInOrder (length (watches l.plan l.part)) l.rows.items };
}

impl Local {
    /// The participant before its first call.
    pub fn new(alloc: Global, plan: &Plan, part: PartId) -> Result<Local, Memory>
        requires { part < length plan.now.parts }
        ensures { IfOk result (λ local. local ≡ record { plan = plan.now; part = part; course = opening plan.now part }) }
    {
        let kept = Tables {
            names: Names::new(alloc, plan, part)?,
            own: OwnMeshes::new(alloc, plan, part)?,
            writes: WriteTable::new(alloc, plan, part)?,
            reads: ReadTable::new(alloc, plan, part)?,
            queue: Queue::new(alloc)?,
        };
        Ok(fresh(alloc, plan.copy(alloc)?, part, kept))
    }

    /// Where the participant is on its way.
    pub fn phase(&self) -> Phase
        ensures { result ≡ self.now.course.phase }
    {
        self.phase
    }

    /// How many steps were accepted.
    pub fn steps(&self) -> u64
        ensures { result ≡ self.now.course.steps }
    {
        self.steps
    }

    /// A row for each watch-point and each window that was completed, by watch-point and then by window.
    pub fn watch_rows(&self) -> &[WatchRow]
        ensures { result.now ≡ self.now.course.rows }
    {
        self.rows.as_slice()
    }

    /// The turn that the newest sample comes from of what a read entry, from 0, has in the reply to the
    /// last Take.
    pub fn source(&self, entry: u32) -> (u32, u32)
        requires entry { entry < length (read_entries self.now.plan self.now.part) }
        requires taken { length self.now.course.sources ≡ length (received self.now.plan self.now.part) }
        ensures { result ≡ source_of self.now.plan self.now.part self.now.course entry }
    {
        let _valid = self.plan.parts();
        self.sources[self.reads.get(entry as usize).received]
    }

    /// Whether the participant is a member of an implicit scheme.
    pub(crate) fn is_implicit(&self) -> bool
        ensures { result ≡ is_some (group_of self.now.plan self.now.part) }
    {
        self.plan.part(self.part).group.is_some()
    }
}

/// What a participant keeps in tables.
#[derive(Drop)]
struct Tables {
    names: Names,
    own: OwnMeshes,
    writes: WriteTable,
    reads: ReadTable,
    queue: Queue,
}

/// The participant that has these tables, in which nothing was put yet.
fn fresh(alloc: Global, plan: Plan, part: PartId, tables: Tables) -> Local
    requires part { part < length plan.parts }
    requires names { tables.names ≡ called_in plan part }
    requires own { tables.own ≡ opening_meshes plan part }
    requires writes { tables.writes ≡ opening_writes plan part }
    requires reads { tables.reads ≡ opening_reads plan part }
    requires waiting { tables.queue.waiting ≡ [] }
    requires out { tables.queue.out ≡ None }
    ensures { result ≡ record { plan = plan; part = part; course = opening plan part } }
{
    let _valid = plan.parts();
    let clock = Clock::new(&plan, part);
    Local {
        alloc,
        plan,
        part,
        phase: Phase::Fresh,
        names: tables.names,
        own: tables.own,
        received: Items::from_vec(Vec::new(alloc)),
        passages: None,
        writes: tables.writes,
        reads: tables.reads,
        inputs: Vec::new(alloc),
        sources: Vec::new(alloc),
        times: Vec::new(alloc),
        asked: Asked {
            initial: false,
            writing: false,
            reading: false,
        },
        clock,
        queue: tables.queue,
        overflow: None,
        steps: 0,
        rows: Vec::new(alloc),
    }
}
