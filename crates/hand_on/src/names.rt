// The lines of types and labels, which are written when they come.
use crate::files::{FileFault, Opened};
use bits::Refusal;
use name_lines::Labels;
use streams::Errno;
use superframe::{State, Taken};
use text::Pen;
use type_lines::Types;

// What was noted last.
#[derive(Clone, Copy)]
pub struct Noted {
    types: Types,
    labels: Labels,
}

impl Noted {
    pub fn none() -> Self {
        Noted {
            types: Types::none(),
            labels: Labels::none(),
        }
    }

    // The lines of superframe k, from 1, which was taken from a state, and what is noted then.
    fn put_lines(
        self,
        pen: &mut Pen<'_>,
        k: u32,
        before: State,
        taken: Taken,
    ) -> Result<Self, Refusal> {
        let service = before.service;
        let position = taken.position;
        let group = service_group::gather(position, service.group, taken.six);
        let types = type_lines::put_types(pen, k, self.types, position, service.stage, group)?;
        let labels = name_lines::put_labels(pen, k, self.labels, taken.labels)?;
        Ok(Noted { types, labels })
    }

    // A line has at most 80 characters, and there are 32 at most of each sort.
    pub fn hear(
        &mut self,
        opened: &Opened,
        k: u32,
        before: State,
        taken: Taken,
    ) -> Result<(), FileFault> {
        let mut lines = [0u8; 8192];
        let mut pen = Pen::new(&mut lines, 0);
        let put = self.put_lines(&mut pen, k, before, taken);
        let end = pen.to;
        *self = put.map_err(|_| FileFault {
            file: 48,
            error: Errno::EIO,
        })?;
        opened.write(48, &lines, end)
    }
}
