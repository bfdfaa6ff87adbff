// A table changed where it stands in its lent buffer: its views, a row's two bytes, a row more, another image in its place.
//
// Every change is promised by `edited`: the image of the changed table, zeros where the old image was longer, and every other byte as it was.
// What stands under it writes parts, and says by `replaced`, `slipped` or `laid` which; where rows begin is an argument there. That a buffer holds an image is one word in each contract and no type, since every function here writes the buffer.
#![tactic(auto)]

pub mod add;
pub mod state;
pub mod take;
pub mod views;
