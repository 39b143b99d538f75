//! A coupling that is played event by event.
//!
//! Each mesh has one vertex. The first participant posts 7 at every turn; what the second posts in
//! its first, second and third iteration is told. All start from 0.

ghost use Rattle.std.specs.Prelude.{◌≡◌, ◌<◌, IsTrue, length};

use crate::answer::{Answer, told};
use core_sides::{Enabled, Ending, Event, NextKind};
use coupling_core::Core;
use cpl_plan::{DataId, MeshId, PartId, Plan};
use fixed_num::{Items, Memory, Value, value_of};
use mesh_data::{AnyMesh, Mesh};
use std::alloc::Global;
use waveform::{Field, Wave};

/// A core, with its plan and what is posted.
#[derive(Drop)]
pub struct Play {
    plan: Plan,
    core: Core,
    second: [i128; 3],
    ghost same: { core.plan ≡ plan },
}

impl Play {
    /// A coupling in which nothing has happened.
    pub fn new(alloc: Global, plan: &Plan, second: [i128; 3]) -> Result<Play, Memory> {
        Ok(Play {
            core: Core::new(alloc, plan.copy(alloc)?)?,
            plan: plan.copy(alloc)?,
            second,
        })
    }

    /// The core, for what it tells.
    pub fn core(&self) -> &Core {
        &self.core
    }

    /// How many participants there are.
    pub fn part_count(&self) -> u32 {
        self.plan.part_count()
    }

    /// Whether `p` takes part.
    fn has(&self, p: PartId) -> bool
        ensures { IsTrue result → p < length self.now.core.plan.parts }
    {
        p < self.plan.part_count()
    }

    /// The turn of `p`.
    pub fn position(&self, p: PartId) -> (u32, u32) {
        if !self.has(p) {
            return (0, 0);
        }
        self.core.position(p)
    }

    /// The kind of the next event of `p`.
    pub fn next_kind(&self, p: PartId) -> NextKind {
        if !self.has(p) {
            return NextKind::None;
        }
        self.core.next_kind(p)
    }

    /// Whether the next event of `p` is enabled.
    pub fn enabled(&self, p: PartId) -> Enabled {
        if !self.has(p) {
            return Enabled::Ended;
        }
        self.core.enabled(p)
    }

    /// When window `w` ends.
    pub fn window_end(&self, w: u32) -> Option<u64> {
        if w < 1 || self.plan.window_count() < w {
            return None;
        }
        self.core.window_end(w)
    }

    /// How `p` has ended.
    pub fn ending(&self, p: PartId) -> Option<Ending> {
        if !self.has(p) {
            return None;
        }
        self.core.ending(p)
    }

    /// Tries the next event of `p`.
    pub fn tries(&mut self, alloc: Global, p: PartId) -> Result<Answer, Memory> {
        match self.next_event(alloc, p)? {
            Some(event) => self.asks(p, event),
            None => Ok(Answer::Nothing),
        }
    }

    /// What an event of `p` is answered.
    pub fn asks(&mut self, p: PartId, event: Event) -> Result<Answer, Memory> {
        if !self.has(p) {
            return Ok(Answer::Unfit);
        }
        if !self.core.fits(p, &event) {
            return Ok(Answer::Unfit);
        }
        told(self.core.apply(p, event))
    }

    /// The next event of `p`; None where it has ended.
    fn next_event(&self, alloc: Global, p: PartId) -> Result<Option<Event>, Memory> {
        Ok(match self.next_kind(p) {
            NextKind::PostMesh => Some(Event::PostMesh(one_vertex(alloc)?)),
            NextKind::TakeMeshes => Some(Event::TakeMeshes),
            NextKind::Post => Some(Event::Post(self.posts(alloc, p)?)),
            NextKind::Judge => Some(Event::Judge),
            NextKind::Take => Some(Event::Take),
            NextKind::End => Some(Event::End),
            NextKind::None => None,
        })
    }

    /// What `p` posts at its turn: a wave of one sample for each exchange that it sends.
    fn posts(&self, alloc: Global, p: PartId) -> Result<Items<Wave>, Memory> {
        let (window, iteration) = self.position(p);
        let time = (u64::from(window) * 10).min(25);
        let mut waves = Vec::new(alloc);
        for x in 0..self.plan.exchange_count() {
            let exchange = self.plan.exchange(x);
            if exchange.from == p {
                let components = self.components(exchange.data_id, exchange.mesh);
                let units = self.units(p, iteration);
                waves.push(wave_of(alloc, time, components, units)?)?;
            }
        }
        Ok(Items::from_vec(waves))
    }

    /// How many components data have on a mesh.
    fn components(&self, data_id: DataId, mesh: MeshId) -> u32 {
        let parts = self.plan.parts();
        if parts.data_list.len() <= data_id as usize || parts.meshes.len() <= mesh as usize {
            return 0;
        }
        self.plan.components(data_id, mesh)
    }

    /// What `p` posts in an iteration.
    fn units(&self, p: PartId, iteration: u32) -> i128 {
        match (p, iteration) {
            (_, 0) => 0,
            (1, 1) => self.second[0],
            (1, 2) => self.second[1],
            (1, _) => self.second[2],
            _ => 7_000_000,
        }
    }
}

/// One mesh of one vertex, in two dimensions.
fn one_vertex(alloc: Global) -> Result<Items<AnyMesh>, Memory> {
    let mut mesh = Mesh::<2>::new(alloc);
    let Ok(_) = mesh.push_vertex([0, 0]) else {
        return Err(Memory);
    };
    let mut meshes = Vec::new(alloc);
    meshes.push(AnyMesh::Two(mesh))?;
    Ok(Items::from_vec(meshes))
}

/// A wave of one sample, whose components are alike.
fn wave_of(alloc: Global, time: u64, components: u32, units: i128) -> Result<Wave, Memory> {
    let mut values = Vec::new(alloc);
    for _component in 0..components {
        values.push(value_of(units).unwrap_or(Value::default()))?;
    }
    let field = Field {
        components,
        values: Items::from_vec(values),
    };
    match Wave::constant(alloc, time, field) {
        Ok(wave) => Ok(wave),
        Err(_) => Err(Memory),
    }
}
