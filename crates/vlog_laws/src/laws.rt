ghost use Rattle.std.specs.Prelude.{◌≡◌, List, Some};
ghost use Rattle.vlog_grammar.specs.Expressions.{SpellsExpr};
ghost use Rattle.vlog_grammar.specs.Modules.{AreModules, SpellsFile};
ghost use Rattle.vlog_grammar.specs.Tokens.{Tokens};
ghost use Rattle.vlog_grammar.specs.Statements.{SpellsStmt};
ghost use Rattle.vlog_reading.specs.ReadExpressions.{only_expression};
ghost use Rattle.vlog_reading.specs.ReadModules.{only_modules};
ghost use Rattle.vlog_reading.specs.ReadStatements.{only_statement};
ghost use Rattle.vlog_tokens.specs.declared.token_list.TokenList.{TokenList};
ghost use Rattle.vlog_tree.specs.declared.expression.Expr.{Expr};
ghost use Rattle.vlog_tree.specs.declared.module.Module.{Module};
ghost use Rattle.vlog_tree.specs.declared.module.SourceFile.{SourceFile};
ghost use Rattle.vlog_tree.specs.declared.statement.Stmt.{Stmt};

/// Reading finds an expression exactly where there is one, and there is at most one.
pub fn expressions_are_exact()
    ensures sound { (ts : Tokens) (a : Expr) → only_expression ts ≡ Some a → SpellsExpr ts a }
    ensures complete { (ts : Tokens) (a : Expr) → SpellsExpr ts a → only_expression ts ≡ Some a }
    ensures one { (ts : Tokens) (a b : Expr) → SpellsExpr ts a → SpellsExpr ts b → a ≡ b }
{}

/// Reading finds a statement exactly where there is one, and there is at most one.
pub fn statements_are_exact()
    ensures sound { (ts : Tokens) (a : Stmt) → only_statement ts ≡ Some a → SpellsStmt ts a }
    ensures complete { (ts : Tokens) (a : Stmt) → SpellsStmt ts a → only_statement ts ≡ Some a }
    ensures one { (ts : Tokens) (a b : Stmt) → SpellsStmt ts a → SpellsStmt ts b → a ≡ b }
{}

/// Reading finds the modules of a file exactly where the tokens spell them, and tokens with their
/// coverage comments spell at most one file.
pub fn files_are_exact()
    ensures sound { (ts : Tokens) (all : List Module) → only_modules ts ≡ Some all → AreModules ts all }
    ensures complete { (ts : Tokens) (all : List Module) → AreModules ts all → only_modules ts ≡ Some all }
    ensures one { (tokens : TokenList) (a b : SourceFile) → SpellsFile tokens a → SpellsFile tokens b → a ≡ b }
{}
