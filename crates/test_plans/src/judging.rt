//! Paginations judged, in a line each.
ghost use Rattle.pg_floats.specs.AreFloats.{AreFloats};

use pg_floats::FloatList;
use pg_judge::JudgeFault;
use pg_list::Galley;
use pg_style::Style;
use std::alloc::{AllocError, Global};
use test_files::{Named, judged};

// Adds the line of a verdict.
fn write_verdict(
    alloc: Global,
    name: &str,
    verdict: Result<i128, JudgeFault>,
    out: &mut Vec<u8>,
) -> Result<(), AllocError> {
    let line = match verdict {
        Ok(cost) => format!(in alloc; "{name}: legal {cost}\n")?,
        Err(JudgeFault::Broken { rule, column }) => {
            format!(in alloc; "{name}: rule {rule} column {column}\n")?
        }
        Err(JudgeFault::Memory) => return Err(AllocError),
    };
    out.extend_from_slice(line.as_bytes())
}

/// The lines of all verdicts on the paginations of a galley.
pub fn verdicts(
    alloc: Global,
    galley: &Galley,
    style: &Style,
    floats: &FloatList,
    plans: &[Named<'_>],
) -> Result<Vec<u8>, AllocError>
    requires { AreFloats galley.now.blocks style.now floats.now }
{
    let mut out = Vec::new(alloc);
    for it in plans {
        let verdict = judged(alloc, galley, style, floats, &it.plan);
        write_verdict(alloc, it.name, verdict, &mut out)?;
    }
    Ok(out)
}
