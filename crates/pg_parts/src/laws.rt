//! Each law is the contract of a function that does nothing.
ghost use Rattle.std.specs.Prelude.{◌≡◌, List, reverse};
ghost use Rattle.pg_plan.specs.declared.pages.PageMove.{PageMove as AMove};
ghost use Rattle.pg_rules.specs.Room.{Document};
ghost use Rattle.pg_parts.specs.Parts.{PartsAddUp, part_sum};
ghost use Rattle.pg_parts.specs.Priced.{ArePriced, amounts};
ghost use Rattle.pg_parts.specs.declared.part.Part.{Part as APart};
ghost use Rattle.pg_parts.specs.declared.priced.PricedColumn.{PricedColumn as AColumn};

/// The parts of the cost of columns add up to their cost.
pub fn parts_add_up()
    ensures { PartsAddUp }
{}

/// What is told of columns adds up to each part of their cost.
pub fn columns_add_up()
    ensures { (doc : Document) (ms : List AMove) (columns : List AColumn) (part : APart) →
        ArePriced doc ms (reverse columns) → amounts columns part ≡ part_sum doc ms part }
{}
