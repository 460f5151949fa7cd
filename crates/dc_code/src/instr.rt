// The machine's instructions.
use dc_types::{BinOp, CmpOp, Kind, Place, TrapKind, UnOp};

/// What an instruction does. In the names of operands `d`, `a`, `b`, `s`, `v` and `p` are slots of the frame: `d`
/// takes the result, `v` is the first of the three of a slice (block, start, length), `p` the first of the two of an
/// address (block, offset). `n` is a number of words, `c` the cells of an element, `t` the number of an instruction.
#[derive(Clone, Copy)]
pub enum Op {
    /// `Const(d, w)`: the word `w`.
    Const(u32, u64),
    /// `Copy(d, s, n)`: the `n` words from `s` on.
    Copy(u32, u32, u32),
    /// `Binary(operator, kind, d, a, b)`: the operator's value on two numbers of the kind. Traps `Divide`, `Shift`.
    Binary(BinOp, Kind, u32, u32, u32),
    /// `Unary(operator, kind, d, a)`: the operator's value on a number of the kind.
    Unary(UnOp, Kind, u32, u32),
    /// `Compare(operator, kind, d, a, b)`: 1 where the comparison holds of two numbers of the kind, else 0.
    Compare(CmpOp, Kind, u32, u32, u32),
    /// `Cast(kind, d, a)`: the word as a number of the kind.
    Cast(Kind, u32, u32),
    /// `Jump(t)`: goes on at `t`.
    Jump(u32),
    /// `JumpZero(s, t)`: goes on at `t` where the word is 0.
    JumpZero(u32, u32),
    /// `JumpOther(s, t)`: goes on at `t` where the word isn't 0.
    JumpOther(u32, u32),
    /// A turn of a loop begins. It takes a tick.
    Turn,
    /// `Call(f, a, d)`: calls the function number `f` with the words from `a` on. It takes a tick. Trap `Depth`.
    Call(u32, u32, u32),
    /// `Return(s, n)`: gives the `n` words from `s` on to the caller.
    Return(u32, u32),
    /// `FrameAt(d, s)`: the address of a slot.
    FrameAt(u32, u32),
    /// `GlobalAt(d, g)`: the address of the module variable number `g`.
    GlobalAt(u32, u32),
    /// `Data(d, g)`: the slice of the whole data number `g`.
    Data(u32, u32),
    /// `Load(d, p, n)`: the `n` words at the address.
    Load(u32, u32, u32),
    /// `Store(p, s, n)`: writes the `n` words from `s` on to the address.
    Store(u32, u32, u32),
    /// `Item(d, v, s, c)`: the address of an element of the slice, by the index at `s`. Trap `Bounds`.
    Item(u32, u32, u32, u32),
    /// `FixedItem(d, p, s, m, c)`: the same in the `m` elements at the address.
    FixedItem(u32, u32, u32, u32, u32),
    /// `Part(d, v, a, b, c)`: the part of the slice from the index at `a` to that at `b`. Trap `Bounds`.
    Part(u32, u32, u32, u32, u32),
    /// `FixedPart(d, p, a, b, m, c)`: the same of the `m` elements at the address.
    FixedPart(u32, u32, u32, u32, u32, u32),
    /// `Own(d, c)`: the address of a new block of `c` words. Trap `Heap`, as of all that makes blocks.
    Own(u32, u32),
    /// `Make(d, s, e, c, grows)`: a new block of as many copies of the data number `e` as the word at `s` says.
    Make(u32, u32, u32, u32, bool),
    /// `List(d, s, n, c, grows)`: a new block of the `n` elements that stand from `s` on.
    List(u32, u32, u32, u32, bool),
    /// `Join(d, a, b, c, grows)`: a new block of the elements of two slices.
    Join(u32, u32, u32, u32, bool),
    /// `Append(d, a, b, c, grows)`: the slice at `a` with the elements of that at `b` behind it: in place where it
    /// ends with its block and that may grow, else as `Join` does.
    Append(u32, u32, u32, u32, bool),
    /// `CopyPart(a, b, c)`: writes the elements of the slice at `b` over those of the slice at `a`. Traps `Length`,
    /// `Overlap`.
    CopyPart(u32, u32, u32),
    /// `Fill(a, s, c)`: writes the element at `s` over each of the slice.
    Fill(u32, u32, u32),
    /// `Same(d, a, b, c)`: 1 where two slices have equal words, else 0.
    Same(u32, u32, u32, u32),
    /// `Number(d, kind, s)`: a new block of the number's text.
    Number(u32, Kind, u32),
    /// `PutInt(kind, s)`: adds the number's text to the pending text.
    PutInt(Kind, u32),
    /// `PutText(v)`: adds the bytes of the slice.
    PutText(u32),
    /// `PutList(kind, v)`: adds the numbers of the slice, as `[1, 2]`.
    PutList(Kind, u32),
    /// `PutData(g)`: adds the bytes of the data number `g`.
    PutData(u32),
    /// Prints the pending text as one piece, and empties it.
    Flush,
    /// `Check(s, trap)`: the trap where the word is 0.
    Check(u32, TrapKind),
}

/// An instruction, with the place of what it was made for.
#[derive(Drop)]
pub struct Instr {
    pub place: Place,
    pub op: Op,
}

/// A function of the code.
#[derive(Drop)]
pub struct Function {
    pub place: Place,
    /// The number of its first instruction.
    pub first: u32,
    /// The number of words in its frame.
    pub weight: u32,
    /// The number of words that a call hands it.
    pub params: u32,
    /// The number of words that it returns.
    pub result: u32,
}
