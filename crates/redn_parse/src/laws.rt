ghost use Rattle.std.specs.Prelude.{◌≡◌};
ghost use Rattle.redn_syntax.specs.declared.tree.File.{File};
ghost use Rattle.redn_syntax.specs.Grammar.{HasTree};

use redn_syntax::Tokens;

/// The tokens of a text have at most one tree, at whatever depth. This is a law, and a call of it
/// does nothing.
pub fn has_one_tree(tokens: &Tokens)
    ensures { (f other : File) → HasTree tokens.now.text.items tokens.now.list.items f →
        HasTree tokens.now.text.items tokens.now.list.items other → f ≡ other }
{
    let _ = tokens;
}
