//! The pages of figures as a service of HTTP.
//!
//! Where memory is refused the answer is 500 with no body, which needs none; only the head of that
//! may find none, and then the connection is dropped.

ghost use Rattle.std.specs.Prelude.{◌≡◌, ◌∷◌, [], OnOk, codes};
ghost use Rattle.http.specs.Request.{head_of};
ghost use Rattle.http_server.specs.Response.{IsBlank, IsResponse};
ghost use Rattle.metrics_server.specs.Answer.{Gives, TellsHealth, allowed, health_status};
ghost use Rattle.metrics_server.specs.Answer.{health_text, plain_type, typed};
ghost use Rattle.relay_metrics.specs.Figures.{health_of};
ghost use Rattle.relay_metrics.specs.Text.{metrics_text};

use crate::place::{Place, is_reading, place_of};
use base_types::OutOfMemory;
use bytes::{BufMut, Bytes};
use http::{HeaderName, HeaderValue, Method, Request, StatusCode};
use http_server::{Response, Service};
use relay_metrics::{Figures, Health, Metered};
use std::alloc::{AllocError, Global};

/// The pages, for any number of connections: `/metrics` with the text of figures that are read for
/// each request, and `/healthz`, which is well where those of this moment say that all rules listen, and
/// have a target that is up.
#[derive(Drop)]
pub struct MetricsService<M: Metered + Drop> {
    metered: M,
    alloc: Global,
    figures: Figures,
}

impl<M: Metered + Drop> MetricsService<M> {
    ghost use Rattle.relay_metrics.specs.Figures.{IsBlank as IsBlankSnapshot};
    ghost use Rattle.metrics_server.specs.Answer.{IsAnswer, figures_of, figures_type, metered_of_service};

    /// A service that reads these figures. It takes no memory.
    pub fn new(alloc: Global, metered: M) -> MetricsService<M>
        ensures blank { IsBlankSnapshot (figures_of result) }
        ensures metered { metered_of_service result ≡ metered }
    {
        MetricsService {
            metered,
            alloc,
            figures: Figures::new(alloc),
        }
    }

    fn answer(
        &mut self,
        request: &Request<Bytes>,
        response: &mut Response,
    ) -> Result<(), OutOfMemory>
        requires { IsBlank response.old }
        ensures { OnOk result (IsAnswer request.now (figures_of self.new) response.new) }
    {
        let method = request.method();
        match place_of(request.uri().path()) {
            Place::Metrics => self.answer_figures(method, response),
            Place::Health => self.answer_health(method, response),
            Place::Elsewhere => {
                response.status = StatusCode::NOT_FOUND;
                Ok(())
            }
        }
    }

    fn answer_figures(
        &mut self,
        method: &Method,
        response: &mut Response,
    ) -> Result<(), OutOfMemory>
        requires { IsBlank response.old }
        ensures { OnOk result
            (Gives figures_type (metrics_text (figures_of self.new)) method.now response.new) }
    {
        if !is_reading(method) {
            return not_allowed(response);
        }
        self.metered.read(&mut self.figures)?;
        let text = self.figures.text(self.alloc)?;
        let kind = HeaderValue::from_static("text/plain; version=0.0.4; charset=utf-8");
        give(response, kind, text.as_slice())
    }
}

impl<M: Metered + Drop> MetricsService<M> {
    ghost use Rattle.metrics_server.specs.Answer.{figures_of};

    fn answer_health(&mut self, method: &Method, response: &mut Response) -> Result<(), OutOfMemory>
        requires { IsBlank response.old }
        ensures { OnOk result
            (TellsHealth (health_of (figures_of self.new)) method.now response.new) }
    {
        if !is_reading(method) {
            return not_allowed(response);
        }
        self.metered.read(&mut self.figures)?;
        give_health(self.figures.health(), response)
    }
}

impl<M: Metered + Drop> Service for MetricsService<M> {
    ghost use Rattle.metrics_server.specs.Answer.{IsAnswerOrRefusal, figures_of};

    ghost answers = { λ _ request response after.
        IsAnswerOrRefusal request (figures_of after) response };

    fn call(
        &mut self,
        request: &Request<Bytes>,
        response: &mut Response,
    ) -> Result<(), AllocError> {
        if self.answer(request, response).is_err() {
            refuse(response);
        }
        Ok(())
    }
}

fn give_health(health: Health, response: &mut Response) -> Result<(), OutOfMemory>
    requires { IsBlank response.old }
    ensures { OnOk result (IsResponse (health_status health) (typed plain_type)
        (health_text health) response.new) }
{
    let kind = HeaderValue::from_static("text/plain; charset=utf-8");
    match health {
        Health::Well => give(response, kind, b"ok\n"),
        Health::NotListening => give_unwell(response, kind, b"not listening\n"),
        Health::NoTarget => give_unwell(response, kind, b"no target up\n"),
    }
}

fn give_unwell(response: &mut Response, kind: HeaderValue, text: &[u8]) -> Result<(), OutOfMemory>
    requires { IsBlank response.old }
    ensures { OnOk result (IsResponse 503 (typed kind.bytes) text.now response.new) }
{
    give(response, kind, text)?;
    response.status = StatusCode::SERVICE_UNAVAILABLE;
    Ok(())
}

fn give(response: &mut Response, kind: HeaderValue, text: &[u8]) -> Result<(), OutOfMemory>
    requires { IsBlank response.old }
    ensures { OnOk result (IsResponse 200 (typed kind.bytes) text.now response.new) }
{
    response.add_header(HeaderName::from_static("content-type"), kind)?;
    response.body.put_slice(text)
}

fn not_allowed(response: &mut Response) -> Result<(), OutOfMemory>
    requires { IsBlank response.old }
    ensures { OnOk result (IsResponse 405 allowed [] response.new) }
{
    let methods = HeaderValue::from_static("GET, HEAD");
    response.add_header(HeaderName::from_static("allow"), methods)?;
    response.status = StatusCode::METHOD_NOT_ALLOWED;
    Ok(())
}

// No more than a status, whatever was written before memory was refused.
fn refuse(response: &mut Response)
    ensures { IsResponse 500 [] [] response.new }
{
    response.clear();
    response.status = StatusCode::INTERNAL_SERVER_ERROR;
}
