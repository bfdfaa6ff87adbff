// A table's mode and views.
ghost use Rattle.std.specs.Prelude.{◌≡◌};
ghost use Rattle.rules.specs.Messages.{promising};
ghost use Rattle.table.specs.Images.{format_one};
ghost use Rattle.edit.specs.Inner.Changes.{with_views};
ghost use Rattle.edit.specs.Inner.Holding.{Holds};
ghost use Rattle.edit.specs.Edited.{edited};

use table::header;

// Sets mode, view and promise at once. That promised and view fit the mode is for the caller to see to.
#[tactic(auto, using(crate::proofs::Holding::one_least))]
pub fn set_views(table: &mut [u8], mode: u8, view: u32, promised: u32)
    requires { Holds format_one table.old }
    ensures { table.new ≡ edited format_one (with_views mode view promised) table.old }
{
    let h = header::read(table);
    header::write(
        table,
        h.with_mode(mode).with_view(view).with_promised(promised),
    );
}

// The box promises a view, and is changing from now on.
#[tactic(auto, using(crate::proofs::Holding::one_least, crate::proofs::EditedParts::promise_edited))]
pub fn promise(table: &mut [u8], view: u32)
    requires { Holds format_one table.old }
    ensures { table.new ≡ edited format_one (λ T. promising T view) table.old }
{
    let h = header::read(table);
    set_views(table, 1, h.view, view);
}
