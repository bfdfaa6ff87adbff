// Messages 5 and 6: the box promises a view, and starts one.
ghost use Rattle.std.specs.Prelude.{◌≡◌, ◌≤◌, length};
ghost use Rattle.rules.specs.Tables.{valley};
ghost use Rattle.rules.specs.Messages.{Message.change_view, Message.start_view};
ghost use Rattle.table.specs.Headers.{header_at};
ghost use Rattle.table.specs.Images.{format_one};
ghost use Rattle.table.specs.Parse.{table_at, BeginsWithImage};
ghost use Rattle.transact.specs.Inner.DoneReplies.{Tells};
ghost use Rattle.transact.specs.Inner.Served.{served_reply, served_buffer};

use numbers::Refusal;
use table::header;
use transact::reply::Reply;

// Message 5: a view above the promised one is promised.
pub fn change_view(table: &mut [u8], view: u32) -> Result<Reply, Refusal>
    requires { BeginsWithImage valley table.old }
    ensures value { Tells result (served_reply valley (change_view view) table.old) }
    ensures table_after { table.new ≡ served_buffer valley (change_view view) table.old }
{
    let h = header::read(table);
    if view <= h.promised {
        return Err(Refusal::OldView);
    }
    edit::views::promise(table, view);
    Ok(Reply::taken(h, 5, 0, u64::from(view), 0))
}

// Message 6: the image is taken whole, if its view is neither below the promised one nor at or below the box's.
pub fn start_view(table: &mut [u8], image: &[u8], view: u32) -> Result<Reply, Refusal>
    requires { BeginsWithImage valley table.old × BeginsWithImage valley image.now × ((header_at image.now).view ≡ view) × ((header_at image.now).length ≤ length table.old) }
    ensures value { Tells result (served_reply valley (start_view view (table_at format_one image.now)) table.old) }
    ensures table_after { table.new ≡ served_buffer valley (start_view view (table_at format_one image.now)) table.old }
{
    let h = header::read(table);
    if view < h.promised || view <= h.view {
        return Err(Refusal::OldView);
    }
    edit::take::take_image(table, image);
    Ok(Reply::taken(h.with_view(view), 6, 0, 0, 0))
}
