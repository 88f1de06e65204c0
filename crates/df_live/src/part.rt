ghost use Rattle.std.specs.Prelude.{◌≡◌, IfOk, IfErr, OnErr};
ghost use Rattle.df_live.specs.Part.{AppendsPart};

use crate::lines::NotTaken;

/// How many bytes were appended to a line, and whether they are its last.
#[derive(Clone, Copy)]
pub struct Part {
    pub count: usize,
    pub ends: bool,
}

/// Appends what stands in front of the first line feed, or all where there is none.
pub fn append_part(left: &[u8], line: &mut Vec<u8>) -> Result<Part, NotTaken>
    ensures appends { IfOk result (AppendsPart left.now line.old.items line.new.items) }
    ensures unchanged { OnErr result (line.new.items ≡ line.old.items) }
    ensures memory { IfErr result (λ e. e ≡ NotTaken.NoMemory) }
{
    let feed = left.iter().position(|b| *b == b'\n');
    let count = match feed {
        Some(at) => at,
        None => left.len(),
    };
    if line.extend_from_slice(&left[..count]).is_err() {
        return Err(NotTaken::NoMemory);
    }
    let ends = feed.is_some();
    Ok(Part { count, ends })
}
