//! Answers as responses.

ghost use Rattle.std.specs.Prelude.{◌≡◌, ◌++◌, [], ◌∷◌, OnOk, map};
ghost use Rattle.farm_page.specs.Answer as answers;
ghost use Rattle.farm_page.specs.Headers.{pairs};
ghost use Rattle.http_header.specs.Token.{lowercase};
ghost use Rattle.http_server.specs.Response.{IsBlank, IsResponse, fields_of};
ghost use Rattle.page_server.specs.Answers.{sent};

use bytes::Bytes;
use farm_page::{Answer, Header, headers_of};
use http::{HeaderName, HeaderValue, StatusCode};
use http_server::Response;
use std::alloc::{AllocError, Global};

/// Adds a header. The only error is out of memory, if HTTP allows the header.
pub fn put_header(
    response: &mut Response,
    alloc: Global,
    name: &str,
    value: &str,
) -> Result<(), AllocError>
    ensures headers { OnOk result (fields_of response.new ≡ fields_of response.old ++ (lowercase name.now, value.now) ∷ []) }
    ensures status { response.new.status ≡ response.old.status }
    ensures body { response.new.body ≡ response.old.body }
{
    let name = HeaderName::from_bytes(alloc, name.as_bytes());
    let value = HeaderValue::from_bytes(alloc, value.as_bytes());
    match (name, value) {
        (Ok(name), Ok(value)) => response.add_header(name, value),
        _ => Err(AllocError),
    }
}

/// Adds headers.
fn put_headers(response: &mut Response, alloc: Global, headers: &[Header]) -> Result<(), AllocError>
    ensures headers { OnOk result (fields_of response.new ≡ fields_of response.old ++ map sent (pairs headers.now)) }
    ensures status { response.new.status ≡ response.old.status }
    ensures body { response.new.body ≡ response.old.body }
{
    for header in headers {
        put_header(response, alloc, header.name, header.value.as_str())?;
    }
    Ok(())
}

/// Makes an answer a response: its status, its headers and its body, and nothing else. The only error is out of memory.
pub fn put_answer(alloc: Global, answer: Answer, response: &mut Response) -> Result<(), AllocError>
    requires { IsBlank response.old }
    ensures { OnOk result (IsResponse (answers.code answer.status) (answers.headers answer) answer.body response.new) }
{
    let Ok(status) = StatusCode::from_u16(answer.status().code()) else {
        return Err(AllocError);
    };
    response.status = status;
    let headers = headers_of(alloc, &answer)?;
    put_headers(response, alloc, &headers)?;
    match Bytes::from_vec(answer.into_body()) {
        Ok(body) => response.body.push(body),
        Err(_) => Err(AllocError),
    }
}
