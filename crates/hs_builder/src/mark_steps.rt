// The step of each mark, on the stacks of parts.
ghost use Rattle.std.specs.Prelude.{◌≡◌, MatchResult};
ghost use Rattle.hs_builder.specs.MarkSteps.{leaf_step, expression_step, function_step, query_step, change_step, definition_step, session_step, step, no_parts};
ghost use Rattle.hs_builder.specs.Steps.{Gives};

use crate::build_fault::BuildFault;
use crate::expression_steps::{apply_expression, apply_function, apply_leaf};
use crate::mark::Mark;
use crate::part::{Changes, Definitions, Expressions, Leaves, Parts, Queries};
use crate::stack::Stack;
use crate::statement_steps::{apply_change, apply_definition, apply_query, apply_session};
use hs_lexer::Token;
use std::alloc::Global;

impl Parts {
    /// No parts. Takes no memory.
    pub fn new(alloc: Global) -> Parts
        ensures { result ≡ no_parts }
    {
        Parts {
            leaves: Leaves {
                places: Stack::new(alloc),
                names: Stack::new(alloc),
                name_lists: Stack::new(alloc),
                aliases: Stack::new(alloc),
                flags: Stack::new(alloc),
                numbers: Stack::new(alloc),
                texts: Stack::new(alloc),
                literals: Stack::new(alloc),
                types: Stack::new(alloc),
            },
            expressions: Expressions {
                whole: Stack::new(alloc),
                lists: Stack::new(alloc),
                cases: Stack::new(alloc),
                forms: Stack::new(alloc),
                fields: Stack::new(alloc),
                counts: Stack::new(alloc),
                optional: Stack::new(alloc),
            },
            queries: Queries {
                selects: Stack::new(alloc),
                tables: Stack::new(alloc),
                froms: Stack::new(alloc),
                rows: Stack::new(alloc),
                bodies: Stack::new(alloc),
                whole: Stack::new(alloc),
            },
            changes: Changes {
                targets: Stack::new(alloc),
                tuples: Stack::new(alloc),
                tuple_lists: Stack::new(alloc),
                updates: Stack::new(alloc),
                deletes: Stack::new(alloc),
                locks: Stack::new(alloc),
            },
            definitions: Definitions {
                tables: Stack::new(alloc),
                columns: Stack::new(alloc),
                headers: Stack::new(alloc),
                keys: Stack::new(alloc),
                actions: Stack::new(alloc),
                constraints: Stack::new(alloc),
            },
            modes: Stack::new(alloc),
            statements: Stack::new(alloc),
        }
    }

    /// The step with a mark, behind this token and before another one.
    #[tactic(auto, using(crate::proofs::Lifting::lifted))]
    pub fn apply(
        &mut self,
        alloc: Global,
        text: &str,
        token: Token,
        here: u32,
        mark: Mark,
    ) -> Result<(), BuildFault>
        ensures { Gives (step text.now token here mark self.old) result self.new }
    {
        match mark {
            Mark::Leaf(mark) => apply_leaf(alloc, text, token, here, mark, &mut self.leaves),
            Mark::Expression(mark) => apply_expression(
                alloc,
                mark,
                &mut self.leaves,
                &mut self.expressions,
                &mut self.queries,
            ),
            Mark::Function(mark) => apply_function(
                alloc,
                token,
                mark,
                &mut self.leaves,
                &mut self.expressions,
            ),
            Mark::Query(mark) => apply_query(
                alloc,
                token,
                mark,
                &mut self.leaves,
                &mut self.expressions,
                &mut self.queries,
            ),
            Mark::Change(mark) => apply_change(alloc, token, mark, self),
            Mark::Definition(mark) => apply_definition(alloc, mark, self),
            Mark::Session(mark) => apply_session(mark, self),
        }
    }
}
