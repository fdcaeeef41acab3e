//! Laws of what words mean.
ghost use Rattle.sd_words.specs.Laws.{PlainVerify, PlainCertificate, PlainReplay, PlainLeaves, PlainWorkers, AnyNames};
ghost use Rattle.sd_words.specs.Laws.{NumbersAreSpelled, OddWords};

/// `verify OLD NEW`, where neither name begins with a hyphen, compares these two with one thread and 2000 branches.
pub fn plain_verify()
    ensures { PlainVerify }
{}

/// With `--certificate FILE` after it, the certificate goes to that file, unless it is one of the two.
pub fn plain_certificate()
    ensures { PlainCertificate }
{}

/// `replay OLD NEW CERTIFICATE`, where no name begins with a hyphen, replays that certificate of these two.
pub fn plain_replay()
    ensures { PlainReplay }
{}

/// After `--` files of any names are compared or replayed, and after `--certificate=` the certificate has any name.
pub fn any_names()
    ensures { AnyNames }
{}

/// `verify OLD NEW --leaves WORD` compares with so many branches exactly where the word is the number's decimal text,
/// from 1 to 20000.
pub fn plain_leaves()
    ensures { PlainLeaves }
{}

/// `verify OLD NEW --workers WORD` compares with so many threads exactly where the word is the number's decimal text,
/// from 1 to 64.
pub fn plain_workers()
    ensures { PlainWorkers }
{}

/// A word is read as a number exactly where it is the decimal text of it, without a sign or a leading zero.
pub fn numbers_are_spelled()
    ensures { NumbersAreSpelled }
{}

/// What odd words name, line by line.
pub fn odd_words()
    ensures { OddWords }
{}
