// The names of the states in order of appearance, in a table of crate `name_table`: where each stands in the text, and the order by which it is found.
ghost use Rattle.std.specs.Prelude.{◌≡◌};
ghost use Rattle.grammar.specs.Places.{spelled};
ghost use Rattle.grammar.specs.inner.Places.{Spelt};
ghost use Rattle.labels.specs.Labels.{same_label};
ghost use Rattle.search.specs.Search.{index, add};
ghost use Rattle.parser.specs.inner.Names.{names_in, SpeltTable, SpeltAddition};

use grammar::TextSpan;

// The number of the state that the text names.
pub fn number_of(text: &[u8], t: &[usize], n: usize, x: TextSpan) -> u32
    requires { SpeltTable text.now t.now n × Spelt text.now x }
    ensures { result ≡ index same_label (spelled text.now x) (names_in text.now t.now n) }
{
    let first = x.start;
    let last = x.end;
    name_table::find(text, t, n, &text[first..last]) as u32
}

// The name that stands in the text behind the others, unless it is one of them: how many names the table has, or nothing
// where there would be over 256.
pub fn add_name(text: &[u8], t: &mut [usize], n: usize, x: TextSpan) -> Option<usize>
    requires { SpeltTable text.now t.old n × Spelt text.now x }
    ensures { SpeltAddition text.now (add same_label (spelled text.now x) (names_in text.now t.old n)) t.new result }
{
    name_table::add(text, t, n, x.start, x.end)
}
