// The worked examples of the documents, proved in one table of the definitions that the contracts cite.
#![tactic(auto)]

ghost use Rattle.worked.specs.Examples.{Examples};

// Every example of the table holds.
pub fn table_stands()
    ensures { Examples }
{}
