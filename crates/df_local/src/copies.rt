//! The same unit once more.

ghost use Rattle.std.specs.Prelude.{◌≡◌, IfOk};

use crate::Local;
use df_memory::NoMemory;

impl Local {
    pub fn copy(&self) -> Result<Local, NoMemory>
        ensures { IfOk result (λ l. l ≡ self.now) }
    {
        let name = self.name.copy()?;
        let reading = self.reading.copy()?;
        let writing = self.writing.copy()?;
        let held = self.held.copy()?;
        let handles = self.handles.copy()?;
        Ok(Local {
            name,
            reading,
            writing,
            held,
            handles,
            given: self.given,
            events: self.events,
            tags: self.tags,
            subs: self.subs,
            units: self.units,
            alloc: self.alloc,
        })
    }
}
