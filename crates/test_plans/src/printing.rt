//! Paginations judged and printed.
ghost use Rattle.pg_floats.specs.AreFloats.{AreFloats};

use pg_floats::FloatList;
use pg_judge::JudgeFault;
use pg_list::Galley;
use pg_pages::print_pages;
use pg_style::Style;
use std::alloc::{AllocError, Global};
use test_files::{Named, judged};

// Adds the name of a pagination, and its page text or the rule that it breaks.
fn print_plan(
    alloc: Global,
    galley: &Galley,
    style: &Style,
    floats: &FloatList,
    named: &Named<'_>,
    out: &mut Vec<u8>,
) -> Result<(), AllocError>
    requires { AreFloats galley.now.blocks style.now floats.now }
{
    let name = format!(in alloc; "-- {}\n", named.name)?;
    out.extend_from_slice(name.as_bytes())?;
    match judged(alloc, galley, style, floats, &named.plan) {
        Ok(cost) => print_pages(galley, style, floats, &named.plan, cost, out),
        Err(JudgeFault::Broken { rule, column }) => {
            let line = format!(in alloc; "rule {rule} column {column}\n")?;
            out.extend_from_slice(line.as_bytes())
        }
        Err(JudgeFault::Memory) => Err(AllocError),
    }
}

/// The texts of all paginations of a galley.
pub fn texts(
    alloc: Global,
    galley: &Galley,
    style: &Style,
    floats: &FloatList,
    plans: &[Named<'_>],
) -> Result<Vec<u8>, AllocError>
    requires { AreFloats galley.now.blocks style.now floats.now }
{
    let mut out = Vec::new(alloc);
    for named in plans {
        print_plan(alloc, galley, style, floats, named, &mut out)?;
    }
    Ok(out)
}
