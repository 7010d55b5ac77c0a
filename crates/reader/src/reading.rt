ghost use Rattle.std.specs.Prelude.{◌≡◌};
ghost use Rattle.reader.specs.Nodes.{node_room};
ghost use Rattle.reader.specs.Looking.{Kept};
ghost use Rattle.reader.specs.Reads.{Read};

use crate::grammar::Reader;
use crate::tree::{MOST_NODES, Tree};
use crate::words::{Words, check_words};
use lang::refusal::{Refusal, Refused};

// Reads the words of a text as a rule, one command, into the table.
fn read_rule(text: &[u8], tree: &mut Tree) -> Result<(), Refused>
    ensures { Kept tree.old tree.new }
{
    let mut words = Words::over(text);
    let word = words.next()?;
    let mut reader = Reader {
        words,
        word,
        nest: 0,
        tree,
    };
    let read = reader.rule();
    // The reader is taken apart here, so that what it left in the tree is known.
    let _tree = reader.tree;
    read
}

// Reads a text into the table of nodes, numbered as they end. Refused: 3 a text too long; else the first byte of
// no word, name too long or number too large, 4 to 6; else the first word that does not belong there or is too
// deep, 7 and 8; else 9 where there are more nodes than the table holds.
pub fn read(text: &[u8], tree: &mut Tree) -> Result<(), Refused>
    ensures read { Read text.now tree.new result }
    ensures room { node_room tree.new ≡ node_room tree.old }
{
    tree.clear();
    check_words(text)?;
    read_rule(text, tree)?;
    if tree.len() > MOST_NODES {
        return Err(Refusal::TooManyNodes.at(0));
    }
    Ok(())
}
