//! A small space for the table: its laws, and a program that fills the table over it:
//! `test_table LAST BELOW ROUNDS [LAST BELOW ROUNDS]..`.
//!
//! The space is the numbers from 0 to LAST, where a move adds 1 or 2 at the cost 1 and only the last number is done
//! (`specs/Numbers`). That it is lawful is proved. The table is filled, and then filled again from the number BELOW on,
//! so often as ROUNDS says. A line tells how many labels there are, the best with its cost, how far the last reaches,
//! and how many numbers were opened, at first and in all rounds. The laws of the table are called once, so that they are
//! met. The script bench/table/run measures the program.
#![tactic(auto)]

ghost use Rattle.std.specs.Prelude.{◌≡◌, ◌≤◌, ◌^◌};
ghost use Rattle.pg_table.specs.Label.{AreLabels, IsTable};
ghost use Rattle.test_table.specs.Numbers.{numbers};

mod space;

use anyhow::{Context, anyhow};
use pg_table::{
    Steps, Table, best_undercuts_done_runs, empty_table_is_right_below_0, narrower_is_lawful,
    narrower_table_is_wide, right_below_for_agreeing, right_below_goes_down,
    table_begins_with_start, table_is_right_below,
};
use space::Numbers;
use std::alloc::{AllocError, Global};
use std::env;
use std::marker::Brand;
use std::sync::ledger::{Blank, Ledger};

/// What is measured.
#[derive(Copy, Clone)]
struct Load {
    last: u32,
    below: u32,
    rounds: u32,
}

/// What a table holds behind all rounds, and how many numbers were opened for it.
#[derive(Copy, Clone)]
struct Found {
    labels: usize,
    best: Option<usize>,
    cost: i128,
    reach: u32,
    filled: u32,
    refilled: u32,
}

// The laws of the table hold of this one.
fn meet_laws(space: &Numbers, table: &Table<u32, u32, u32>)
    requires { IsTable (numbers space.now.last) table.now }
{
    table_begins_with_start(space, table);
    best_undercuts_done_runs(space, table);
    right_below_goes_down(space, table);
    right_below_for_agreeing(space, space, table);
    narrower_is_lawful(space);
    narrower_table_is_wide(space, table);
}

// What a table holds, where so many numbers were opened at first.
fn found_of(space: &Numbers, table: &Table<u32, u32, u32>, filled: u32) -> Found
    requires { AreLabels (numbers space.now.last) table.now }
{
    let labels = table.labels();
    let (cost, reach) = match labels.last() {
        None => (0, 0),
        Some(last) => (last.cost, last.reach),
    };
    Found {
        labels: labels.len(),
        best: table.best(space),
        cost,
        reach,
        filled,
        refilled: space.take_calls(),
    }
}

// What is found behind all rounds.
fn filled<L: Ledger>(alloc: Global, blank: Blank, load: Load) -> Result<Found, AllocError>
    requires name { blank.name ≡ L.name }
    requires parts { blank.parts ≡ L.parts }
    requires one { blank.parts ≡ 1 }
    requires last { load.last ≤ 2 ^ 30 }
{
    let mut steps = Steps::<L>::new(blank);
    let space = Numbers::new(alloc, load.last);
    let mut table = Table::<u32, u32, u32>::new(alloc);
    empty_table_is_right_below_0(&space, &table);
    table.fill(&space, &mut steps)?;
    meet_laws(&space, &table);
    let opened = space.take_calls();
    for _ in 0..load.rounds {
        table_is_right_below(&space, &table);
        table.refill(&space, load.below, &mut steps)?;
    }
    Ok(found_of(&space, &table, opened))
}

// The number that a word says.
fn number(word: &String) -> anyhow::Result<u32> {
    let number = word.as_str().parse::<u32>().context("a word is no number")?;
    Ok(number)
}

// What a call asks for.
fn load_of(words: &[String]) -> anyhow::Result<Load> {
    let [last, below, rounds] = words else {
        return Err(anyhow!("LAST BELOW ROUNDS are wanted"));
    };
    let load = Load {
        last: number(last)?,
        below: number(below)?,
        rounds: number(rounds)?,
    };
    Ok(load)
}

// The line on what was found.
fn say(rt: &HostRuntime, found: &Found) -> anyhow::Result<()> {
    let Some(best) = found.best else {
        return Err(anyhow!("no label is done"));
    };
    println!(rt;
        "{} labels, best {} at the cost {}, the last reaches {}, opened {} and {}",
        found.labels, best, found.cost, found.reach, found.filled, found.refilled
    )?;
    Ok(())
}

fn main(rt: HostRuntime) -> anyhow::Result<()> {
    let words: Vec<String> = env::args(&rt)?.skip(1).collect(rt.alloc())?;
    for three in words.as_slice().chunks(3) {
        let load = load_of(three)?;
        if load.last > 1 << 30 {
            return Err(anyhow!("LAST is too large"));
        }
        let found = filled::<Brand>(rt.alloc(), Blank::new(1), load)?;
        say(&rt, &found)?;
    }
    Ok(())
}
