//! What a query asks.
ghost use Rattle.std.specs.Prelude.{◌≡◌};
ghost use Rattle.ing_commands.specs.Views.{query_view};
ghost use Rattle.ing_query.specs.Questions.{question_view};
ghost use Rattle.ing_session.specs.Selecting.{page_of, question_of};

use ing_commands::Query;
use ing_query::Question;

/// What a query asks of the entries of the streams that it selects.
pub fn question_of<'a>(query: &Query<'a>) -> Question<'a>
    ensures { question_view result ≡ question_of (query_view query.now) }
{
    Question {
        start: query.start,
        end: query.end,
        order: query.order,
        limit: query.limit,
        after: query.after,
    }
}

/// How many entries a page has at most, where a query asks for pages.
pub fn page_of(query: &Query<'_>) -> Option<usize>
    ensures { result ≡ page_of (query_view query.now) }
{
    if query.pages { Some(query.limit) } else { None }
}
