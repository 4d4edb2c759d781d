// Trials of the piece tree: tens of thousands of pieces, split and put together again in other orders at random offsets, and
// held against a plain list of the pieces.
#![tactic(auto)]

ghost use Rattle.std.specs.Prelude.{◌≡◌, ◌+◌, ◌^◌, ◌<◌, ◌≤◌};
ghost use Rattle.nodes.specs.Trees.{long, Fair};

use measure::{Fingerprint, Total, fold};
use nodes::{Item, Node, Sums, Tree, draw, fill, recycle, sums};
use piece_tree::PieceTree;
use seeking::{depth, find, find_break, summary};
use std::io;

const PIECES: usize = 30_000;

const ROUNDS: usize = 2_000;

const LARGE: usize = 1_000_000;

const SEEKS: usize = 1_000;

// Keeps lengths far below what a usize holds.
const LONGEST: usize = 1 << 40;

type Stock = Vec<Box<Node<usize, Fingerprint>>>;

// The piece tree of the trials: at the longest one piece longer than the bound.
#[derive(Drop)]
struct Pieces {
    whole: PieceTree<usize, Fingerprint>,
    ghost short: { long whole.tree ≤ 2 ^ 40 + 7 },
}

// A simple generator of numbers.
#[derive(Drop)]
struct Random {
    state: u64,
}

impl Random {
    // The next number, below a bound.
    fn below(&mut self, bound: usize) -> usize
        requires { 0 < bound }
        ensures { result < bound }
    {
        self.state = self
            .state
            .wrapping_mul(6364136223846793005)
            .wrapping_add(1442695040888963407);
        (self.state >> 33) as usize % bound
    }
}

// A piece by its number: one to seven elements, some of them breaks.
fn item(number: usize) -> Item<usize, Fingerprint>
    ensures fair { Fair result }
    ensures short { result.length ≤ 7 }
{
    let shown = [(number % 251) as u8];
    Item {
        piece: number,
        length: number % 7 + 1,
        breaks: number % 3 % (number % 7 + 1),
        total: fold(&shown),
    }
}

// All pieces in the order of their numbers.
fn build(stock: &mut Stock) -> Pieces {
    let none = Pieces {
        whole: PieceTree::empty(),
    };
    (0..PIECES).fold(none, |pieces, number| append(pieces, stock, number))
}

// One more piece at the end, where the stock has a place for it.
fn append(pieces: Pieces, stock: &mut Stock, number: usize) -> Pieces {
    if stock.is_empty() || pieces.whole.len() > LONGEST {
        return pieces;
    }
    Pieces {
        whole: pieces.whole.push_back(draw(stock, item(number))),
    }
}

// Where the piece at a cut goes, when what lies after it is put before what lies in front of it.
#[derive(Clone, Copy, PartialEq, Eq, Debug)]
enum Turn {
    PieceLast,
    PieceBetween,
}

// A tree in another order, and how many pieces lay before the cut.
#[derive(Drop)]
struct Turned {
    pieces: Pieces,
    before: usize,
}

// Cuts a tree at the piece that holds the offset, and turns its parts.
fn turn_tree(turn: Turn, pieces: Pieces, offset: usize) -> Turned
    requires within { offset < long pieces.whole.tree }
    ensures same { long result.pieces.whole.tree ≡ long pieces.whole.tree }
{
    let part = pieces.whole.split(offset);
    let before = sums(&part.left.tree).pieces;
    let whole = match turn {
        Turn::PieceLast => part.right.concat(part.left.push_back(part.place)),
        Turn::PieceBetween => part.right.join(part.place, part.left),
    };
    Turned {
        pieces: Pieces { whole },
        before,
    }
}

// The same on a plain list.
fn turn_list(turn: Turn, numbers: &mut [usize], before: usize) {
    if before < numbers.len() {
        let after = numbers.len() - before - 1;
        numbers.rotate_left(before + 1);
        if turn == Turn::PieceBetween {
            numbers[after..].rotate_right(1);
        }
    }
}

// A tree beside the plain list that it is held against.
#[derive(Drop)]
struct Trial {
    pieces: Pieces,
    numbers: Vec<usize>,
}

// One turn at a random offset, of both.
fn step(trial: Trial, random: &mut Random) -> Trial {
    let Trial {
        pieces,
        mut numbers,
    } = trial;
    let length = pieces.whole.len();
    if length == 0 {
        return Trial { pieces, numbers };
    }
    let offset = random.below(length);
    let turn = if random.below(2) == 0 {
        Turn::PieceLast
    } else {
        Turn::PieceBetween
    };
    let turned = turn_tree(turn, pieces, offset);
    turn_list(turn, &mut numbers, turned.before);
    Trial {
        pieces: turned.pieces,
        numbers,
    }
}

// Many turns.
fn turns(trial: Trial, random: &mut Random) -> Trial {
    (0..ROUNDS).fold(trial, |trial, _round| step(trial, random))
}

// Whether the pieces of a tree are those of the list, in its order.
fn agrees(tree: &Tree<usize, Fingerprint>, numbers: &[usize]) -> bool {
    let Tree::Place(place) = tree else {
        return numbers.is_empty();
    };
    let Some((before, rest)) = numbers.split_at_checked(sums(&place.left).pieces) else {
        return false;
    };
    let Some((number, after)) = rest.split_first() else {
        return false;
    };
    *number == place.item.piece && agrees(&place.left, before) && agrees(&place.right, after)
}

// Whether the sums of a tree are those of the list.
fn sums_agree(tree: &Tree<usize, Fingerprint>, numbers: &[usize]) -> bool {
    let plain = numbers
        .iter()
        .fold(Sums::none(), |all: Sums<Fingerprint>, number| {
            let one = item(*number);
            Sums {
                length: all.length.saturating_add(one.length),
                breaks: all.breaks.saturating_add(one.breaks),
                pieces: all.pieces.saturating_add(1),
                total: all.total.join(one.total),
            }
        });
    sums(tree) == plain
}

// Where the list has the element of this offset, or the break of this number, by what is counted of a piece: how many pieces
// lie before, and how much of the count is left inside the piece.
fn find_plainly<F: Fn(Item<usize, Fingerprint>) -> usize>(
    numbers: &[usize],
    sought: usize,
    count: F,
) -> (usize, usize)
    requires { F.IsAlwaysCallable count }
{
    let mut inner = sought;
    for (before, number) in numbers.iter().enumerate() {
        let held = count(item(*number));
        if inner < held {
            return (before, inner);
        }
        inner -= held;
    }
    (numbers.len(), inner)
}

// Whether a random offset, and the break of a random number, are found where the list has them.
fn found(pieces: &Pieces, numbers: &[usize], random: &mut Random) -> bool {
    let tree = &pieces.whole.tree;
    let all = sums(tree);
    if all.length == 0 || all.breaks == 0 {
        return false;
    }
    let offset = random.below(all.length);
    let at = find(tree, offset);
    let number = random.below(all.breaks);
    let broken = find_break(tree, number);
    find_plainly(numbers, offset, |item| item.length) == (at.before.pieces, at.inner)
        && find_plainly(numbers, number, |item| item.breaks) == (broken.before.pieces, broken.inner)
}

// How many of a thousand random offsets and breaks are found.
fn founds(pieces: &Pieces, numbers: &[usize], random: &mut Random) -> usize {
    (0..SEEKS)
        .filter(|_seek| found(pieces, numbers, random))
        .count()
}

// Whether a depth is within the bound for so many pieces.
fn bounded(depth: usize, pieces: usize) -> bool {
    let half = depth.div_ceil(2);
    half < 63 && (1usize << half) <= pieces.saturating_add(1)
}

// All places of a tree go back to the stock, where it has room for them.
fn give_back(pieces: Pieces, stock: &mut Stock) {
    let tree = pieces.whole.tree;
    if summary(&tree).pieces <= stock.capacity() - stock.len() {
        recycle(tree, stock);
    }
}

fn main(rt: HostRuntime) -> io::Result<()> {
    let alloc = rt.alloc();
    let mut random = Random { state: 1 };
    let mut stock = fill(alloc, PIECES, item(0))?;
    let pieces = build(&mut stock);
    let mut numbers = Vec::with_capacity(alloc, PIECES)?;
    numbers.extend(0..PIECES)?;
    let trial = turns(Trial { pieces, numbers }, &mut random);
    let tree = &trial.pieces.whole.tree;
    let all = summary(tree);
    let pieces = all.pieces;
    println!(rt;
        "{pieces} pieces, {} elements, {} breaks",
        all.length, all.breaks
    )?;
    println!(rt; "order agrees: {}", agrees(tree, &trial.numbers))?;
    println!(rt; "sums agree: {}", sums_agree(tree, &trial.numbers))?;
    let deep = depth(tree);
    println!(rt; "depth {deep}, within the bound: {}", bounded(deep, pieces))?;
    let count = founds(&trial.pieces, &trial.numbers, &mut random);
    println!(rt; "{count} of {SEEKS} offsets and breaks found")?;
    let left = stock.len();
    give_back(trial.pieces, &mut stock);
    println!(rt;
        "{left} places left, {} after all were given back",
        stock.len()
    )?;
    let large = fill(alloc, LARGE, item(0))?;
    println!(rt; "a stock of {} places is let go", large.len())
}
