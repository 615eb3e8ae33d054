//! The program of bulk work.

ghost use Rattle.std.specs.Prelude.{◌≡◌, IfOk};
ghost use Rattle.hpf_run.specs.BulkText.{bulk_head, bulk_tail, bulk_text};

use hpf_base::OutOfMemory;
use itoa::Buffer;
use std::alloc::Global;

/// The text of the program of bulk work: two sweeps of relaxation over a square array of so many rows, as nests of INDEPENDENT loops. Its
/// rows lie in blocks in the first sweep, and its columns are dealt out, one after the other, in the second (HPF 2.0, 8.3).
pub fn bulk_text(alloc: Global, size: u32) -> Result<Vec<u8>, OutOfMemory>
    ensures { IfOk result (λ text. text.items ≡ bulk_text size) }
{
    let mut digits = Buffer::new();
    let mut text = Vec::from_slice(alloc, head())?;
    text.extend_from_slice(digits.format(size).as_bytes())?;
    text.extend_from_slice(tail())?;
    Ok(text)
}

/// The text before the size.
fn head() -> &'static [u8]
    ensures { result.now ≡ bulk_head }
{
    b"PROGRAM BULK\nINTEGER, PARAMETER :: N = "
}

/// The text after the size.
fn tail() -> &'static [u8]
    ensures { result.now ≡ bulk_tail }
{
    b"
INTEGER :: A(N,N), B(N,N), I, J, K, S, T
!HPF$ DYNAMIC A
!HPF$ DISTRIBUTE A(BLOCK,*)
!HPF$ ALIGN B(:,:) WITH A(:,:)
FORALL (I=1:N, J=1:N) A(I,J) = I*I + J*J
B = A
DO K = 1, 2
S = 0
!HPF$ INDEPENDENT, NEW(I,T), REDUCTION(S)
DO J = 2, N-1
!HPF$ INDEPENDENT, NEW(T)
DO I = 2, N-1
T = (A(I-1,J) + A(I+1,J) + A(I,J-1) + A(I,J+1)) / 4
S = S + ABS(T - A(I,J))
B(I,J) = T
END DO
END DO
A = B
PRINT *, K, S
IF (K == 1) THEN
!HPF$ REDISTRIBUTE A(*,CYCLIC)
END IF
END DO
PRINT *, 'BULK', N, SUM(A), MAXVAL(A)
END PROGRAM BULK
"
}
