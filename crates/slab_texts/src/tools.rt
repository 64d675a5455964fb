ghost use Rattle.std.specs.Prelude.{◌≡◌, ◌<◌, ◌^◌, IfOk, []};

use node_ele_write::Pen;
use st_base::NoMemory;
use std::alloc::Global;

/// What lines are made with, one slab after another: a pen, room for the tetrahedra at a vertex, and the memory of texts
/// that are done with, which later texts are written into.
#[derive(Drop)]
pub struct Tools {
    pub pen: Pen,
    pub tets: Vec<[u32; 4]>,
    kept: Vec<Vec<u8>>,
}

impl Tools {
    /// Tools, which take the two mebibytes of a pen.
    pub fn new(alloc: Global) -> Result<Tools, NoMemory> {
        Ok(Tools {
            pen: Pen::new(alloc)?,
            tets: Vec::new(alloc),
            kept: Vec::new(alloc),
        })
    }

    /// Keeps the memory of a text; where there is none to note it in, the text is given up.
    pub fn keep(&mut self, text: Vec<u8>) {
        let _ = self.kept.push(text);
    }

    /// A text that was kept, if there is one.
    pub fn take_kept(&mut self) -> Option<Vec<u8>> {
        self.kept.pop()
    }

    /// An empty text with room for so many bytes: in memory that was kept, or in fresh memory of twice the room, so that
    /// larger texts find room in it later.
    pub(crate) fn text(&mut self, alloc: Global, room: usize) -> Result<Vec<u8>, NoMemory>
        requires { room < 2 ^ 62 }
        ensures { IfOk result (λ text. text.items ≡ []) }
    {
        if let Some(text) = self.take_kept() {
            if room <= text.capacity() {
                let mut text = text;
                text.clear();
                return Ok(text);
            }
        }
        match Vec::with_capacity(alloc, 2 * room) {
            Ok(text) => Ok(text),
            Err(_) => Err(NoMemory),
        }
    }
}
