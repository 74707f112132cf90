//! What the contracts of a log's steps mean together. Each function does nothing: its contract is a
//! law, which the check proves.

ghost use Rattle.std.specs.Prelude.{◌≡◌, codes};
ghost use Rattle.log_writer.specs.Run.{EachLineIsWrittenOrTold, TheLastBatchTellsTheRest};
ghost use Rattle.log_writer.specs.declared.log_file.TheConstants.{STANDARD_ERROR};

/// However pushes, refills and writes follow each other, and wherever writes stop, the device holds
/// the lines in order, each once, with a line `lost N`, in JSON its object, exactly where N were lost;
/// what it doesn't hold yet is what is left of the batch and what waits. For fewer than 2^64 pushes.
pub fn each_line_is_written_or_told()
    ensures { EachLineIsWrittenOrTold }
{}

/// A batch that `Batch::finish` fills says all that is left to be said.
pub fn the_last_batch_tells_the_rest()
    ensures { TheLastBatchTellsTheRest }
{}

/// The path that stands for standard error, in letters.
pub fn the_path_of_standard_error()
    ensures { STANDARD_ERROR.now ≡ codes "-" }
{}
