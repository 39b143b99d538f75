use crate::parts::{Accel, DataPlan, MeshPlan, Part, PlanParts, Scheme, Watch};
use fixed_num::{CopyIn, Memory};
use std::alloc::Global;

impl CopyIn for PlanParts {
    fn copy_in(&self, alloc: Global) -> Result<PlanParts, Memory> {
        Ok(PlanParts {
            method: self.method,
            window: self.window,
            end_time: self.end_time,
            most_windows: self.most_windows,
            parts: self.parts.copy_in(alloc)?,
            meshes: self.meshes.copy_in(alloc)?,
            data_list: self.data_list.copy_in(alloc)?,
            schemes: self.schemes.copy_in(alloc)?,
            exchanges: self.exchanges.copy(alloc)?,
            nodes: self.nodes.copy(alloc)?,
        })
    }
}

impl CopyIn for Part {
    fn copy_in(&self, alloc: Global) -> Result<Part, Memory> {
        Ok(Part {
            name: self.name.copy(alloc)?,
            provides: self.provides.copy(alloc)?,
            receives: self.receives.copy(alloc)?,
            writes: self.writes.copy(alloc)?,
            reads: self.reads.copy(alloc)?,
            maps: self.maps.copy(alloc)?,
            watches: self.watches.copy_in(alloc)?,
            group: self.group,
        })
    }
}

impl CopyIn for Watch {
    fn copy_in(&self, alloc: Global) -> Result<Watch, Memory> {
        Ok(Watch {
            name: self.name.copy(alloc)?,
            mesh: self.mesh,
            at: self.at.copy(alloc)?,
        })
    }
}

impl CopyIn for MeshPlan {
    fn copy_in(&self, alloc: Global) -> Result<MeshPlan, Memory> {
        Ok(MeshPlan {
            name: self.name.copy(alloc)?,
            dimensions: self.dimensions,
            owner: self.owner,
            data_list: self.data_list.copy(alloc)?,
        })
    }
}

impl CopyIn for DataPlan {
    fn copy_in(&self, alloc: Global) -> Result<DataPlan, Memory> {
        Ok(DataPlan {
            name: self.name.copy(alloc)?,
            vector: self.vector,
            degree: self.degree,
        })
    }
}

impl CopyIn for Scheme {
    fn copy_in(&self, alloc: Global) -> Result<Scheme, Memory> {
        Ok(Scheme {
            kind: self.kind,
            members: self.members.copy(alloc)?,
            min: self.min,
            max: self.max,
            measures: self.measures.copy(alloc)?,
            accel: self.accel.copy_in(alloc)?,
        })
    }
}

impl CopyIn for Accel {
    fn copy_in(&self, alloc: Global) -> Result<Accel, Memory> {
        match self {
            Accel::None => Ok(Accel::None),
            Accel::Constant { factor, over } => Ok(Accel::Constant {
                factor: *factor,
                over: over.copy(alloc)?,
            }),
            Accel::Aitken { first, over } => Ok(Accel::Aitken {
                first: *first,
                over: over.copy(alloc)?,
            }),
        }
    }
}
