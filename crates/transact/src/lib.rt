// Messages 1 to 4: a transaction's prepare and its outcome, each proposed and finalised, by the table that a buffer begins with.
//
// Each message has its own function, promised against `rules`: the reply, and the whole buffer after it. What the message itself must keep has been seen to by `message`.
//
// The two that propose go the same ways, and so do the two that finalise. One function for both would have to be told by closures how a row is changed, and be promised what each of them does to the table. That is longer than the few lines that they share. Each takes the fields of its message, as `answer::serve` has them in hand.
//
// That a buffer begins with an image is one word in each contract and no type: the buffer is lent to be written, and a type's fact would have to be shown anew after every write.
#![tactic(auto)]

pub mod add;
pub mod outcome;
pub mod prepare;
pub mod reply;
