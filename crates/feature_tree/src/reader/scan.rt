//! Looks over the tokens before a formula is made of them. Nothing here takes memory.
ghost use Rattle.std.specs.Prelude.{◌≡◌, ◌^◌, ◌+◌, ◌<◌, length, IsTrue, IsFalse};
ghost use Rattle.feature_tree.specs.Roles.{roles_of, has_unsupported};
ghost use Rattle.feature_tree.specs.Grammar.{HasFormula};
ghost use Rattle.feature_tree.specs.inside.Scan.{is_name, is_unsupported, next_stage};

use crate::reader::role::Role;
use uvl_lex::Token;

/// Whether some token, or a name and the parenthesis after it, is of a kind that no formula has yet.
pub(crate) fn has_unsupported(tokens: &[Token]) -> bool
    ensures { result ≡ has_unsupported (roles_of tokens.now) }
{
    let mut follows_name = false;
    for token in tokens {
        let role = Role::of(token.kind);
        if is_unsupported(follows_name, role) {
            return true;
        }
        follows_name = is_name(role);
    }
    false
}

/// Whether the token is a name.
fn is_name(role: Role) -> bool
    ensures { result ≡ is_name role }
{
    matches!(role, Role::Name)
}

/// Whether no formula has such a token yet, where a name stands before it or not.
fn is_unsupported(follows_name: bool, role: Role) -> bool
    ensures { result ≡ is_unsupported follows_name role }
{
    match role {
        Role::Unsupported => true,
        Role::Opens => follows_name,
        _ => false,
    }
}

/// Whether the tokens are a formula. To see it needs no more than to count the open parentheses.
pub(crate) fn is_formula(tokens: &[Token]) -> bool
    ensures yes { IsTrue result → HasFormula (roles_of tokens.now) }
    ensures no { IsFalse result → HasFormula (roles_of tokens.now) → ⊥ }
{
    let mut stage = Stage {
        wants_operand: true,
        depth: 0,
    };
    for token in tokens {
        match stage.after(Role::of(token.kind)) {
            Some(next) => stage = next,
            None => return false,
        }
    }
    !stage.wants_operand && stage.depth == 0
}

/// Where a formula stands after some of its tokens.
#[derive(Clone, Copy, Debug)]
pub(crate) struct Stage {
    /// An operand has to come, or one stands before.
    pub wants_operand: bool,
    /// How many parentheses are open.
    pub depth: usize,
}

impl Stage {
    /// After one token more; none where that may not stand here.
    fn after(self, role: Role) -> Option<Stage>
        requires { self.depth + 1 < 2 ^ 64 }
        ensures { result ≡ next_stage self.wants_operand self.depth role }
    {
        let Stage {
            wants_operand,
            depth,
        } = self;
        match (wants_operand, role) {
            (true, Role::Name) => Some(Stage {
                wants_operand: false,
                depth,
            }),
            (true, Role::Not) => Some(self),
            (true, Role::Opens) => Some(Stage {
                wants_operand,
                depth: depth + 1,
            }),
            (false, Role::Joins(_)) => Some(Stage {
                wants_operand: true,
                depth,
            }),
            (false, Role::Closes) if 0 < depth => Some(Stage {
                wants_operand,
                depth: depth - 1,
            }),
            _ => None,
        }
    }
}
