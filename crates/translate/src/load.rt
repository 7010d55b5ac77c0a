ghost use Rattle.std.specs.Prelude.{◌≡◌};
ghost use Rattle.lang.specs.Stacks.{room};
ghost use Rattle.reader.specs.Nodes.{node_room};
ghost use Rattle.translate.specs.Loads.{Answers, WipedTree, WipedNames};

use crate::checked::check::check;
use crate::checked::write::translate;
use crate::record::{NO_RECORD, Record};
use lang::code::Code;
use lang::refusal::Refused;
use lang::sheet::Sheet;
use lang::stack::Stack;
use reader::reading::read;
use reader::tree::Tree;

// Reads, checks and translates a text, with the five parameters of `load`.
fn load_text(
    text: &[u8],
    sheet: &Sheet,
    tree: &mut Tree,
    names: &mut Stack<Record>,
    code: &mut Code,
) -> Result<usize, Refused>
    ensures answers { Answers result code.old code.new }
    ensures nodes { node_room tree.new ≡ node_room tree.old }
    ensures names { room names.new ≡ room names.old }
{
    read(text, tree)?;
    let checked = check(tree, sheet, names)?;
    Ok(translate(checked, sheet, names, code))
}

// From a text to code over a sheet: the code's length, or the refusal, which leaves the code as it was. The memory for
// nodes and names is zero afterwards. Five parameters, since the host lends each memory apart and keeps it.
pub fn load(
    text: &[u8],
    sheet: &Sheet,
    tree: &mut Tree,
    names: &mut Stack<Record>,
    code: &mut Code,
) -> Result<usize, Refused>
    ensures answers { Answers result code.old code.new }
    ensures nodes { WipedTree tree.old tree.new }
    ensures names { WipedNames names.old names.new }
{
    let answer = load_text(text, sheet, tree, names, code);
    tree.wipe();
    names.wipe(NO_RECORD);
    answer
}
