//! Galleys printed.
ghost use Rattle.std.specs.Prelude.{◌≡◌, ◌++◌, ◌∷◌, [], OnOk, OnErr, decimal};
ghost use Rattle.std.specs.Fmt.{signed_decimal};
ghost use Rattle.std.specs.List.{flat_map};
ghost use Rattle.pg_list.specs.Bodies.{body_of};
ghost use Rattle.pg_showbox.specs.Text.{body_text, items_text, choice_line, variant_front, end_line, root_front, variant_text, variant_numbers, block_text, galley_text};
ghost use Rattle.pg_scaled.specs.Scaled.{Grows};

use itoa::Buffer;
use pg_list::{Block, Galley, Item, Variant};
use pg_scaled::print_scaled;
use pg_scan::print_dotted;
use std::alloc::AllocError;

// Each line of a body, with a point in front.
fn print_body(body: &[u8], out: &mut Vec<u8>) -> Result<(), AllocError>
    ensures ok { OnOk result (out.new.items ≡ out.old.items ++ body_text body.now) }
    ensures grows { Grows out.old.items out.new.items }
{
    out.push(b'.')?;
    print_dotted(body, out)?;
    out.push(b'\n')?;
    Ok(())
}

fn print_items(items: &[Item], out: &mut Vec<u8>) -> Result<(), AllocError>
    ensures ok { OnOk result (out.new.items ≡ out.old.items ++ items_text items.now) }
    ensures grows { Grows out.old.items out.new.items }
{
    for item in items {
        print_body(item.body(), out)?;
    }
    Ok(())
}

#[tactic(auto, unfolding(crate::specs::Text::variant_front))]
fn print_variant_front(out: &mut Vec<u8>) -> Result<(), AllocError>
    ensures ok { OnOk result (out.new.items ≡ out.old.items ++ variant_front) }
    ensures grows { Grows out.old.items out.new.items }
{
    out.extend_from_slice(b".\\special{pg:variant ")?;
    Ok(())
}

fn print_looseness(looseness: i32, out: &mut Vec<u8>) -> Result<(), AllocError>
    ensures ok { OnOk result (out.new.items ≡ out.old.items ++ signed_decimal looseness) }
    ensures grows { Grows out.old.items out.new.items }
{
    let mut buffer = Buffer::new();
    out.extend_from_slice(buffer.format(looseness).as_bytes())?;
    Ok(())
}

fn print_demerits(demerits: u32, out: &mut Vec<u8>) -> Result<(), AllocError>
    ensures ok { OnOk result (out.new.items ≡ out.old.items ++ decimal demerits) }
    ensures grows { Grows out.old.items out.new.items }
{
    let mut buffer = Buffer::new();
    out.extend_from_slice(buffer.format(demerits).as_bytes())?;
    Ok(())
}

fn print_numbers(looseness: i32, demerits: u32, out: &mut Vec<u8>) -> Result<(), AllocError>
    ensures ok { OnOk result (out.new.items ≡ out.old.items ++ variant_numbers looseness demerits) }
    ensures grows { Grows out.old.items out.new.items }
{
    print_looseness(looseness, out)?;
    out.push(b' ')?;
    print_demerits(demerits, out)?;
    out.push(b'}')?;
    out.push(b'\n')?;
    Ok(())
}

fn print_variant(variant: &Variant, out: &mut Vec<u8>) -> Result<(), AllocError>
    ensures ok { OnOk result (out.new.items ≡ out.old.items ++ variant_text variant.now) }
    ensures grows { Grows out.old.items out.new.items }
{
    print_variant_front(out)?;
    print_numbers(variant.looseness, variant.demerits, out)?;
    print_items(variant.items.as_slice(), out)
}

fn print_variants(variants: &[Variant], out: &mut Vec<u8>) -> Result<(), AllocError>
    ensures ok { OnOk result (out.new.items ≡ out.old.items ++ flat_map variant_text variants.now) }
    ensures grows { Grows out.old.items out.new.items }
{
    for variant in variants {
        print_variant(variant, out)?;
    }
    Ok(())
}

#[tactic(auto, unfolding(crate::specs::Text::choice_line))]
fn print_choice_line(out: &mut Vec<u8>) -> Result<(), AllocError>
    ensures ok { OnOk result (out.new.items ≡ out.old.items ++ choice_line) }
    ensures grows { Grows out.old.items out.new.items }
{
    out.extend_from_slice(b".\\special{pg:choice}\n")?;
    Ok(())
}

#[tactic(auto, unfolding(crate::specs::Text::end_line))]
fn print_end_line(out: &mut Vec<u8>) -> Result<(), AllocError>
    ensures ok { OnOk result (out.new.items ≡ out.old.items ++ end_line) }
    ensures grows { Grows out.old.items out.new.items }
{
    out.extend_from_slice(b".\\special{pg:end}\n")?;
    Ok(())
}

fn print_block(block: &Block, out: &mut Vec<u8>) -> Result<(), AllocError>
    ensures ok { OnOk result (out.new.items ≡ out.old.items ++ block_text block.now) }
    ensures grows { Grows out.old.items out.new.items }
{
    match block {
        Block::One(item) => print_body(item.body(), out),
        Block::Choice(choice) => {
            print_choice_line(out)?;
            print_variants(choice.variants(), out)?;
            print_end_line(out)
        }
    }
}

fn print_blocks(blocks: &[Block], out: &mut Vec<u8>) -> Result<(), AllocError>
    ensures ok { OnOk result (out.new.items ≡ out.old.items ++ flat_map block_text blocks.now) }
    ensures grows { Grows out.old.items out.new.items }
{
    for block in blocks {
        print_block(block, out)?;
    }
    Ok(())
}

#[tactic(auto, unfolding(crate::specs::Text::root_front))]
fn print_root_front(out: &mut Vec<u8>) -> Result<(), AllocError>
    ensures ok { OnOk result (out.new.items ≡ out.old.items ++ root_front) }
    ensures grows { Grows out.old.items out.new.items }
{
    out.extend_from_slice(b"\\vbox(0.0+0.0)x")?;
    Ok(())
}

fn print_all(galley: &Galley, out: &mut Vec<u8>) -> Result<(), AllocError>
    ensures ok { OnOk result (out.new.items ≡ out.old.items ++ galley_text galley.now) }
    ensures grows { Grows out.old.items out.new.items }
{
    print_root_front(out)?;
    print_scaled(galley.width() as i128, out)?;
    out.push(b'\n')?;
    print_blocks(galley.blocks().as_slice(), out)
}

/// Appends the text of a galley: a root of its width, and the lines of its blocks. Where memory runs
/// out, nothing is appended.
pub fn print_galley(galley: &Galley, out: &mut Vec<u8>) -> Result<(), AllocError>
    ensures ok { OnOk result (out.new.items ≡ out.old.items ++ galley_text galley.now) }
    ensures err { OnErr result (out.new.items ≡ out.old.items) }
{
    let start = out.len();
    if let Err(refused) = print_all(galley, out) {
        out.truncate(start);
        return Err(refused);
    }
    Ok(())
}
