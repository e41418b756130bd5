//! A page of whole numbers.
ghost use Rattle.std.specs.Prelude.{◌≡◌, []};
ghost use Rattle.run_spool.specs.Pages.{pairs_size};
ghost use Rattle.prefix_spool.specs.Numbers.{number_pairs};
ghost use Rattle.prefix_spool.specs.PrefixBytes.{prefix_size};

/// Does nothing: its clauses tell how many bytes of a page of 4,096 the pairs of the numbers from 0 on take. 371 fit.
pub fn numbers_on_a_page()
    ensures most { pairs_size prefix_size [] (number_pairs 371 0) ≡ 4090 }
    ensures next { pairs_size prefix_size [] (number_pairs 372 0) ≡ 4101 }
{}
